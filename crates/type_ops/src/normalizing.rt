ghost use Rattle.std.specs.Prelude.{◌≡◌, IsTrue, IfOk, All, Contains};
ghost use Rattle.type_arena.specs.Arena.{store_of};
ghost use Rattle.type_arena.specs.Meaning.{term_of, rows_by, fields_by};
ghost use Rattle.type_arena.specs.Store.{has as has_node, row_types, field_types};
ghost use Rattle.type_arena.specs.declared.node.TypeRef.{TypeRef as RefValue};
ghost use Rattle.type_normal.specs.Nodes.{is_all_tables};
ghost use Rattle.type_normal.specs.Rows.{has_empty as has_empty_term, is_unknown as is_unknown_term};
ghost use Rattle.type_ops.specs.Normalized.{normal_of, known_ones, known_rows as known_list, is_all, only_all_tables, has_every_part};

use crate::sorting::rows_in_order;
use std::alloc::{AllocError, Global};
use type_arena::{Among, Arena, Label, List, Node, Nodes, Row, TypeRef};
use type_normal::is_empty;

/// Rows in normal form: fields of type unknown are dropped, and so are rows with an empty field; the others stand in order,
/// each once.
pub(crate) fn normal_rows(
    alloc: Global,
    arena: &Arena<'_>,
    rows: &[Row],
) -> Result<List<Row>, AllocError>
    requires { All (λ child. IsTrue (has_node (store_of arena.now) child)) (row_types rows.now) }
    ensures rows { IfOk result (λ all. rows_by (term_of (store_of arena.now)) all ≡ normal_of (rows_by (term_of (store_of arena.now)) rows.now)) }
    ensures refs { IfOk result (λ all. (child : RefValue) → Contains (row_types all) child → Contains (row_types rows.now) child) }
{
    let known = known_rows(alloc, arena, rows)?;
    let all = rows_in_order(alloc, arena, known)?;
    Ok(all)
}

// The rows without empty fields, without their fields of type unknown.
fn known_rows(alloc: Global, arena: &Arena<'_>, rows: &[Row]) -> Result<Vec<Row>, AllocError>
    requires { All (λ child. IsTrue (has_node (store_of arena.now) child)) (row_types rows.now) }
    ensures { IfOk result (λ known. known.items ≡ known_list (term_of (store_of arena.now)) rows.now) }
{
    let mut known = Vec::new(alloc);
    for row in rows {
        let empty = has_empty(arena, row.fields.as_slice());
        if !empty {
            let fields = known_fields(alloc, arena, row.fields.as_slice())?;
            known.push(Row {
                frozen: row.frozen,
                fields,
            })?;
        }
    }
    Ok(known)
}

// Whether one of some fields has an empty type.
fn has_empty(arena: &Arena<'_>, fields: &[(Label, TypeRef)]) -> bool
    requires { All (λ child. IsTrue (has_node (store_of arena.now) child)) (field_types fields.now) }
    ensures { result ≡ has_empty_term (fields_by (term_of (store_of arena.now)) fields.now) }
{
    let mut any = false;
    for field in fields {
        any = any | is_empty(arena, field.1);
    }
    any
}

// The fields whose type isn't unknown.
fn known_fields(
    alloc: Global,
    arena: &Arena<'_>,
    fields: &[(Label, TypeRef)],
) -> Result<List<(Label, TypeRef)>, AllocError>
    requires { All (λ child. IsTrue (has_node (store_of arena.now) child)) (field_types fields.now) }
    ensures { IfOk result (λ known. known ≡ known_ones (term_of (store_of arena.now)) fields.now) }
{
    let mut known = Vec::new(alloc);
    for field in fields {
        let unknown = is_unknown(arena, field.1);
        if !unknown {
            known.push((field.0.clone()?, field.1))?;
        }
    }
    Ok(List::of(known))
}

// Whether a type is unknown by its form.
fn is_unknown(arena: &Arena<'_>, at: TypeRef) -> bool
    requires { IsTrue (has_node (store_of arena.now) at) }
    ensures { result ≡ is_unknown_term (term_of (store_of arena.now) at) }
{
    is_whole(arena.node(at))
}

// Whether a node has every part, and the row of all tables alone.
fn is_whole(node: &Node) -> bool
    ensures { result ≡ has_every_part node.now }
{
    let all = node.nil & node.truth & node.falsity & node.number & node.other;
    let rows = node.rows.as_slice();
    all & has_every(&node.strings) & has_every(&node.functions) & is_any_table(rows)
}

// Whether a set has all members, by its form.
fn has_every<T>(set: &Among<T>) -> bool
    ensures { result ≡ is_all set.now }
{
    match set {
        Among::Only(_) => false,
        Among::AllBut(members) => members.as_slice().is_empty(),
    }
}

// Whether rows are the row of all tables alone.
fn is_any_table(rows: &[Row]) -> bool
    ensures { result ≡ only_all_tables rows.now }
{
    let one = rows.len() == 1;
    if !one {
        return false;
    }
    is_all_table(&rows[0])
}

// Whether a row is that of all tables.
fn is_all_table(row: &Row) -> bool
    ensures { result ≡ is_all_tables row.now }
{
    !row.frozen & row.fields.as_slice().is_empty()
}
