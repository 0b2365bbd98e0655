ghost use Rattle.std.specs.Prelude.{◌≡◌, true, IsTrue, IfSome, IfOk, All};
ghost use Rattle.type_arena.specs.Meaning.{term_of, rows_by, fields_by};
ghost use Rattle.type_arena.specs.Store.{has as has_node, row_types, field_types};
ghost use Rattle.type_normal.specs.Rows.{are_normal_rows, are_normal_fields};
ghost use Rattle.subtype_check.specs.Below.{each_row, rows_above, fields_above};
ghost use Rattle.subtype_check.specs.Checking.{Answers};
ghost use Rattle.subtype_memory.specs.Remembering.{AreRight};

use std::alloc::AllocError;
use std::collections::HashMap;
use subtype_check::{Pair, has_all_values, is_free_below, listed};
use type_arena::{Label, Nodes, Row, TypeRef};

/// What was found of which types are below others.
pub(crate) type Known = HashMap<Pair, bool>;

/// Whether the lower of two types is below the upper one.
#[cycle(walk)]
pub(crate) fn types_below<N: Nodes>(
    nodes: &N,
    known: &mut Known,
    pair: Pair,
) -> Result<bool, AllocError>
    requires lower { IfSome pair.lower (λ at. IsTrue (has_node (N.arenas nodes.now) at)) }
    requires upper { IsTrue (has_node (N.arenas nodes.now) pair.upper) }
    requires right { AreRight (N.arenas nodes.now) known.old }
    ensures answer { IfOk result (λ below. Answers (N.arenas nodes.now) pair below) }
    ensures right { AreRight (N.arenas nodes.now) known.new }
{
    if pair.lower == Some(pair.upper) {
        return Ok(true);
    }
    if let Some(answer) = known.get(&pair) {
        return Ok(*answer);
    }
    let answer = nodes_below(nodes, known, pair)?;
    known.insert(pair, answer)?;
    Ok(answer)
}

// Whether the lower of two types is below the upper one, by their nodes.
#[cycle(walk)]
fn nodes_below<N: Nodes>(nodes: &N, known: &mut Known, pair: Pair) -> Result<bool, AllocError>
    requires lower { IfSome pair.lower (λ at. IsTrue (has_node (N.arenas nodes.now) at)) }
    requires upper { IsTrue (has_node (N.arenas nodes.now) pair.upper) }
    requires right { AreRight (N.arenas nodes.now) known.old }
    ensures answer { IfOk result (λ below. Answers (N.arenas nodes.now) pair below) }
    ensures right { AreRight (N.arenas nodes.now) known.new }
{
    let upper = nodes.node(pair.upper);
    let uppers = upper.rows.as_slice();
    match pair.lower {
        Some(at) => {
            let lower = nodes.node(at);
            if !is_free_below(lower, upper) {
                return Ok(false);
            }
            let each = rows_below(nodes, known, lower.rows.as_slice(), uppers)?;
            Ok(each)
        }
        None => {
            if !has_all_values(upper) {
                return Ok(false);
            }
            let tables = row_below(nodes, known, false, &[], uppers)?;
            Ok(tables)
        }
    }
}

// Whether each of some rows has one of others above it.
#[cycle(walk)]
fn rows_below<N: Nodes>(
    nodes: &N,
    known: &mut Known,
    rows: &[Row],
    uppers: &[Row],
) -> Result<bool, AllocError>
    requires lower { All (λ child. IsTrue (has_node (N.arenas nodes.now) child)) (row_types rows.now) }
    requires upper { All (λ child. IsTrue (has_node (N.arenas nodes.now) child)) (row_types uppers.now) }
    requires right { AreRight (N.arenas nodes.now) known.old }
    ensures answer { IfOk result (λ below. are_normal_rows (rows_by (term_of (N.arenas nodes.now)) rows.now) ≡ true → below ≡ each_row (λ frozen fields. rows_above (rows_by (term_of (N.arenas nodes.now)) uppers.now) frozen fields) (rows_by (term_of (N.arenas nodes.now)) rows.now)) }
    ensures right { AreRight (N.arenas nodes.now) known.new }
{
    for row in rows {
        let found = row_below(nodes, known, row.frozen, row.fields.as_slice(), uppers)?;
        if !found {
            return Ok(false);
        }
    }
    Ok(true)
}

// Whether a row has one of some rows above it.
#[cycle(walk)]
fn row_below<N: Nodes>(
    nodes: &N,
    known: &mut Known,
    frozen: bool,
    fields: &[(Label, TypeRef)],
    uppers: &[Row],
) -> Result<bool, AllocError>
    requires lower { All (λ child. IsTrue (has_node (N.arenas nodes.now) child)) (field_types fields.now) }
    requires upper { All (λ child. IsTrue (has_node (N.arenas nodes.now) child)) (row_types uppers.now) }
    requires right { AreRight (N.arenas nodes.now) known.old }
    ensures answer { IfOk result (λ below. are_normal_fields (fields_by (term_of (N.arenas nodes.now)) fields.now) ≡ true → below ≡ rows_above (rows_by (term_of (N.arenas nodes.now)) uppers.now) frozen (fields_by (term_of (N.arenas nodes.now)) fields.now)) }
    ensures right { AreRight (N.arenas nodes.now) known.new }
{
    for upper in uppers {
        if upper.frozen & !frozen {
            continue;
        }
        let above = fields_below(nodes, known, fields, upper.fields.as_slice())?;
        if above {
            return Ok(true);
        }
    }
    Ok(false)
}

// Whether the type of each of some fields is above the one that a row has for it.
#[cycle(walk)]
fn fields_below<N: Nodes>(
    nodes: &N,
    known: &mut Known,
    fields: &[(Label, TypeRef)],
    uppers: &[(Label, TypeRef)],
) -> Result<bool, AllocError>
    requires lower { All (λ child. IsTrue (has_node (N.arenas nodes.now) child)) (field_types fields.now) }
    requires upper { All (λ child. IsTrue (has_node (N.arenas nodes.now) child)) (field_types uppers.now) }
    requires right { AreRight (N.arenas nodes.now) known.old }
    ensures answer { IfOk result (λ below. are_normal_fields (fields_by (term_of (N.arenas nodes.now)) fields.now) ≡ true → below ≡ fields_above (fields_by (term_of (N.arenas nodes.now)) uppers.now) (fields_by (term_of (N.arenas nodes.now)) fields.now)) }
    ensures right { AreRight (N.arenas nodes.now) known.new }
{
    for upper in uppers {
        let pair = Pair {
            lower: listed(fields, &upper.0),
            upper: upper.1,
        };
        let fits = types_below(nodes, known, pair)?;
        if !fits {
            return Ok(false);
        }
    }
    Ok(true)
}
