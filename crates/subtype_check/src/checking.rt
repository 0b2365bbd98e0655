ghost use Rattle.std.specs.Prelude.{◌≡◌, ◌<◌, true, false, length, IsTrue, IfSome, All};
ghost use Rattle.luau_values.specs.Heap.{Heap};
ghost use Rattle.luau_values.specs.Value.{Value};
ghost use Rattle.type_arena.specs.Meaning.{term_of, rows_by, fields_by};
ghost use Rattle.type_arena.specs.Store.{has as has_node, row_types, field_types};
ghost use Rattle.type_normal.specs.Holds.{holds};
ghost use Rattle.type_normal.specs.Rows.{is_normal, are_normal_rows, are_normal_fields};
ghost use Rattle.subtype_check.specs.Below.{below as below_term, each_row, rows_above, fields_above};
ghost use Rattle.subtype_check.specs.Checking.{listed_at, Answers, IsRight};

use crate::free::{has_all_values, is_free_below};
use crate::known::{Known, Pair, keep, look_up};
use type_arena::{Label, Nodes, Row, TypeRef};

/// Whether the one type is below the other. Takes no memory.
///
/// Equal references are below at once. Of the pairs of types that were met, 256 are remembered, each at a place that its
/// references give; what is met again once its place was taken by another pair is compared again.
pub fn below<N: Nodes>(nodes: &N, a: TypeRef, b: TypeRef) -> bool
    requires first { IsTrue (has_node (N.arenas nodes.now) a) }
    requires second { IsTrue (has_node (N.arenas nodes.now) b) }

    // The answer is that of the definition. Where it is yes, each value of the one type belongs to the other, in every heap.
    ensures exact { is_normal (term_of (N.arenas nodes.now) a) ≡ true → result ≡ below_term (term_of (N.arenas nodes.now) a) (term_of (N.arenas nodes.now) b) }
    ensures includes { is_normal (term_of (N.arenas nodes.now) a) ≡ true → result ≡ true → (h : Heap) (v : Value) → holds h v (term_of (N.arenas nodes.now) a) ≡ true → holds h v (term_of (N.arenas nodes.now) b) ≡ true }
{
    let mut known = [None; 256];
    let pair = Pair {
        lower: Some(a),
        upper: b,
    };
    types_below(nodes, &mut known, pair)
}

// Whether the lower of two types is below the upper one.
#[cycle(walk)]
fn types_below<N: Nodes>(nodes: &N, known: &mut [Option<Known>], pair: Pair) -> bool
    requires lower { IfSome pair.lower (λ at. IsTrue (has_node (N.arenas nodes.now) at)) }
    requires upper { IsTrue (has_node (N.arenas nodes.now) pair.upper) }
    requires room { 0 < length known.old }
    requires right { All (IsRight (N.arenas nodes.now)) known.old }
    ensures answer { Answers (N.arenas nodes.now) pair result }
    ensures right { All (IsRight (N.arenas nodes.now)) known.new }
{
    if pair.lower == Some(pair.upper) {
        return true;
    }
    if let Some(answer) = look_up(known, pair) {
        return answer;
    }
    let answer = nodes_below(nodes, known, pair);
    keep(known, pair, answer);
    answer
}

// Whether the lower of two types is below the upper one, by their nodes.
#[cycle(walk)]
fn nodes_below<N: Nodes>(nodes: &N, known: &mut [Option<Known>], pair: Pair) -> bool
    requires lower { IfSome pair.lower (λ at. IsTrue (has_node (N.arenas nodes.now) at)) }
    requires upper { IsTrue (has_node (N.arenas nodes.now) pair.upper) }
    requires room { 0 < length known.old }
    requires right { All (IsRight (N.arenas nodes.now)) known.old }
    ensures answer { Answers (N.arenas nodes.now) pair result }
    ensures right { All (IsRight (N.arenas nodes.now)) known.new }
{
    let upper = nodes.node(pair.upper);
    let uppers = upper.rows.as_slice();
    match pair.lower {
        Some(at) => {
            let lower = nodes.node(at);
            if !is_free_below(lower, upper) {
                return false;
            }
            rows_below(nodes, known, lower.rows.as_slice(), uppers)
        }
        None => {
            if !has_all_values(upper) {
                return false;
            }
            row_below(nodes, known, false, &[], uppers)
        }
    }
}

// Whether each of some rows has one of others above it.
#[cycle(walk)]
fn rows_below<N: Nodes>(
    nodes: &N,
    known: &mut [Option<Known>],
    rows: &[Row],
    uppers: &[Row],
) -> bool
    requires lower { All (λ child. IsTrue (has_node (N.arenas nodes.now) child)) (row_types rows.now) }
    requires upper { All (λ child. IsTrue (has_node (N.arenas nodes.now) child)) (row_types uppers.now) }
    requires room { 0 < length known.old }
    requires right { All (IsRight (N.arenas nodes.now)) known.old }
    ensures answer { are_normal_rows (rows_by (term_of (N.arenas nodes.now)) rows.now) ≡ true → result ≡ each_row (λ frozen fields. rows_above (rows_by (term_of (N.arenas nodes.now)) uppers.now) frozen fields) (rows_by (term_of (N.arenas nodes.now)) rows.now) }
    ensures right { All (IsRight (N.arenas nodes.now)) known.new }
{
    for row in rows {
        if !row_below(nodes, known, row.frozen, row.fields.as_slice(), uppers) {
            return false;
        }
    }
    true
}

// Whether a row has one of some rows above it.
#[cycle(walk)]
fn row_below<N: Nodes>(
    nodes: &N,
    known: &mut [Option<Known>],
    frozen: bool,
    fields: &[(Label, TypeRef)],
    uppers: &[Row],
) -> bool
    requires lower { All (λ child. IsTrue (has_node (N.arenas nodes.now) child)) (field_types fields.now) }
    requires upper { All (λ child. IsTrue (has_node (N.arenas nodes.now) child)) (row_types uppers.now) }
    requires room { 0 < length known.old }
    requires right { All (IsRight (N.arenas nodes.now)) known.old }
    ensures answer { are_normal_fields (fields_by (term_of (N.arenas nodes.now)) fields.now) ≡ true → result ≡ rows_above (rows_by (term_of (N.arenas nodes.now)) uppers.now) frozen (fields_by (term_of (N.arenas nodes.now)) fields.now) }
    ensures right { All (IsRight (N.arenas nodes.now)) known.new }
{
    for upper in uppers {
        if upper.frozen & !frozen {
            continue;
        }
        if fields_below(nodes, known, fields, upper.fields.as_slice()) {
            return true;
        }
    }
    false
}

// Whether the type of each of some fields is above the one that a row has for it.
#[cycle(walk)]
fn fields_below<N: Nodes>(
    nodes: &N,
    known: &mut [Option<Known>],
    fields: &[(Label, TypeRef)],
    uppers: &[(Label, TypeRef)],
) -> bool
    requires lower { All (λ child. IsTrue (has_node (N.arenas nodes.now) child)) (field_types fields.now) }
    requires upper { All (λ child. IsTrue (has_node (N.arenas nodes.now) child)) (field_types uppers.now) }
    requires room { 0 < length known.old }
    requires right { All (IsRight (N.arenas nodes.now)) known.old }
    ensures answer { are_normal_fields (fields_by (term_of (N.arenas nodes.now)) fields.now) ≡ true → result ≡ fields_above (fields_by (term_of (N.arenas nodes.now)) uppers.now) (fields_by (term_of (N.arenas nodes.now)) fields.now) }
    ensures right { All (IsRight (N.arenas nodes.now)) known.new }
{
    for upper in uppers {
        let pair = Pair {
            lower: listed(fields, &upper.0),
            upper: upper.1,
        };
        if !types_below(nodes, known, pair) {
            return false;
        }
    }
    true
}

/// The type that a row lists for a field.
pub fn listed(fields: &[(Label, TypeRef)], name: &Label) -> Option<TypeRef>
    ensures { result ≡ listed_at name.now fields.now }
{
    for field in fields {
        if field.0 == *name {
            return Some(field.1);
        }
    }
    None
}
