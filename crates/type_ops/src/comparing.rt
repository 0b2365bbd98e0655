ghost use Rattle.std.specs.Prelude.{◌≡◌, IsTrue, IfOk, All};
ghost use Rattle.type_arena.specs.Arena.{store_of};
ghost use Rattle.type_arena.specs.Meaning.{term_of, rows_by, fields_by};
ghost use Rattle.type_arena.specs.Store.{has as has_node, row_types, field_types};
ghost use Rattle.type_arena.specs.Term.{Term, free_of};
ghost use Rattle.type_arena.specs.declared.node.TypeRef.{TypeRef as RefValue};
ghost use Rattle.type_normal.specs.Free.{free_cmp};
ghost use Rattle.type_normal.specs.Rows.{term_cmp, rows_cmp, names_cmp, types_cmp};
ghost use Rattle.type_ops.specs.Comparing.{AreCompared, row_order};
ghost use Rattle.type_ops.specs.Sets.{among_cmp};

use crate::pairs::Pair;
use std::alloc::AllocError;
use std::cmp::Ordering;
use std::collections::HashMap;
use type_arena::{Among, Arena, Label, Node, Nodes, Row, TypeRef};

/// How types are known to compare, by their references.
pub(crate) type Comparisons = HashMap<Pair, Ordering>;

// How two types compare. Each pair that is met is looked at once, and then remembered.
#[cycle(comparisons)]
fn compare_types(
    arena: &Arena<'_>,
    known: &mut Comparisons,
    pair: Pair,
) -> Result<Ordering, AllocError>
    requires first { IsTrue (has_node (store_of arena.now) pair.first) }
    requires second { IsTrue (has_node (store_of arena.now) pair.second) }
    requires right { AreCompared (store_of arena.now) known.old }
    ensures order { IfOk result (λ o. o ≡ term_cmp (term_of (store_of arena.now) pair.first) (term_of (store_of arena.now) pair.second)) }
    ensures right { IfOk result (λ o. AreCompared (store_of arena.now) known.new) }
{
    if pair.first == pair.second {
        return Ok(Ordering::Equal);
    }
    if let Some(order) = known.get(&pair) {
        return Ok(*order);
    }
    let a = arena.node(pair.first);
    let b = arena.node(pair.second);
    let free = compare_free(a, b);
    if free.is_ne() {
        return Ok(free);
    }
    let order = compare_row_lists(arena, known, a.rows.as_slice(), b.rows.as_slice())?;
    known.insert(pair, order)?;
    Ok(order)
}

// How two lists of rows compare.
#[cycle(comparisons)]
fn compare_row_lists(
    arena: &Arena<'_>,
    known: &mut Comparisons,
    rows: &[Row],
    others: &[Row],
) -> Result<Ordering, AllocError>
    requires first { All (λ child. IsTrue (has_node (store_of arena.now) child)) (row_types rows.now) }
    requires second { All (λ child. IsTrue (has_node (store_of arena.now) child)) (row_types others.now) }
    requires right { AreCompared (store_of arena.now) known.old }
    ensures order { IfOk result (λ o. o ≡ rows_cmp (rows_by (term_of (store_of arena.now)) rows.now) (rows_by (term_of (store_of arena.now)) others.now)) }
    ensures right { IfOk result (λ o. AreCompared (store_of arena.now) known.new) }
{
    for i in 0..rows.len().min(others.len()) {
        let order = compare_rows(arena, known, &rows[i], &others[i])?;
        if order.is_ne() {
            return Ok(order);
        }
    }
    Ok(rows.len().cmp(&others.len()))
}

/// How two rows compare: those that need no frozen table come first, then the names of their fields decide, and then their
/// types.
#[cycle(comparisons)]
pub(crate) fn compare_rows(
    arena: &Arena<'_>,
    known: &mut Comparisons,
    row: &Row,
    other: &Row,
) -> Result<Ordering, AllocError>
    requires first { All (λ child. IsTrue (has_node (store_of arena.now) child)) (field_types row.now.fields) }
    requires second { All (λ child. IsTrue (has_node (store_of arena.now) child)) (field_types other.now.fields) }
    requires right { AreCompared (store_of arena.now) known.old }
    ensures order { IfOk result (λ o. o ≡ row_order (term_of (store_of arena.now)) row.now other.now) }
    ensures right { IfOk result (λ o. AreCompared (store_of arena.now) known.new) }
{
    let fields = row.fields.as_slice();
    let others = other.fields.as_slice();
    let outer = row
        .frozen
        .cmp(&other.frozen)
        .then(compare_names(fields, others));
    if outer.is_ne() {
        return Ok(outer);
    }
    compare_field_types(arena, known, fields, others)
}

// How the types of two lists of fields compare.
#[cycle(comparisons)]
fn compare_field_types(
    arena: &Arena<'_>,
    known: &mut Comparisons,
    fields: &[(Label, TypeRef)],
    others: &[(Label, TypeRef)],
) -> Result<Ordering, AllocError>
    requires first { All (λ child. IsTrue (has_node (store_of arena.now) child)) (field_types fields.now) }
    requires second { All (λ child. IsTrue (has_node (store_of arena.now) child)) (field_types others.now) }
    requires right { AreCompared (store_of arena.now) known.old }
    ensures order { IfOk result (λ o. o ≡ types_cmp (fields_by (term_of (store_of arena.now)) fields.now) (fields_by (term_of (store_of arena.now)) others.now)) }
    ensures right { IfOk result (λ o. AreCompared (store_of arena.now) known.new) }
{
    for i in 0..fields.len().min(others.len()) {
        let pair = Pair {
            first: fields[i].1,
            second: others[i].1,
        };
        let order = compare_types(arena, known, pair)?;
        if order.is_ne() {
            return Ok(order);
        }
    }
    Ok(fields.len().cmp(&others.len()))
}

// How the names of two lists of fields compare.
fn compare_names(fields: &[(Label, TypeRef)], others: &[(Label, TypeRef)]) -> Ordering
    ensures { (means : RefValue → Term) → result ≡ names_cmp (fields_by means fields.now) (fields_by means others.now) }
{
    for i in 0..fields.len().min(others.len()) {
        let order = fields[i].0.cmp(&others[i].0);
        if order.is_ne() {
            return order;
        }
    }
    fields.len().cmp(&others.len())
}

// How the free parts of two nodes compare.
fn compare_free(a: &Node, b: &Node) -> Ordering
    ensures { result ≡ free_cmp (free_of a.now) (free_of b.now) }
{
    a.nil
        .cmp(&b.nil)
        .then(a.truth.cmp(&b.truth))
        .then(a.falsity.cmp(&b.falsity))
        .then(a.number.cmp(&b.number))
        .then(a.other.cmp(&b.other))
        .then(compare_sets(&a.strings, &b.strings))
        .then(compare_sets(&a.functions, &b.functions))
}

// How two sets compare: finite ones come first, and then the first members decide that differ.
fn compare_sets<T: Ord>(a: &Among<T>, b: &Among<T>) -> Ordering
    ensures { result ≡ among_cmp T.cmp a.now b.now }
{
    match (a, b) {
        (Among::Only(xs), Among::Only(ys)) => xs.cmp(ys),
        (Among::Only(_), Among::AllBut(_)) => Ordering::Less,
        (Among::AllBut(_), Among::Only(_)) => Ordering::Greater,
        (Among::AllBut(xs), Among::AllBut(ys)) => xs.cmp(ys),
    }
}
