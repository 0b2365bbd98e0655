ghost use Rattle.std.specs.Prelude.{◌≡◌, IsTrue, IfOk, All};
ghost use Rattle.type_arena.specs.Arena.{store_of};
ghost use Rattle.type_arena.specs.Meaning.{term_of, fields_by};
ghost use Rattle.type_arena.specs.Store.{has as has_node, row_types, field_types};
ghost use Rattle.type_normal.specs.Rows.{has_empty as has_empty_term};
ghost use Rattle.type_ops.specs.Normalized.{known_ones, known_rows as known_list};

use crate::reading::is_unknown;
use std::alloc::{AllocError, Global};
use type_arena::{Arena, Label, List, Row, TypeRef};
use type_normal::is_empty;

/// The rows without empty fields, without their fields of type unknown.
pub(crate) fn known_rows(
    alloc: Global,
    arena: &Arena<'_>,
    rows: &[Row],
) -> Result<Vec<Row>, AllocError>
    requires { All (λ child. IsTrue (has_node (store_of arena.now) child)) (row_types rows.now) }
    ensures { IfOk result (λ known. known.items ≡ known_list (term_of (store_of arena.now)) rows.now) }
{
    let mut known = Vec::new(alloc);
    for row in rows {
        let empty = has_empty(arena, row.fields.as_slice());
        if !empty {
            let fields = known_fields(alloc, arena, row.fields.as_slice())?;
            known.push(Row {
                frozen: row.frozen,
                fields,
            })?;
        }
    }
    Ok(known)
}

// Whether one of some fields has an empty type.
fn has_empty(arena: &Arena<'_>, fields: &[(Label, TypeRef)]) -> bool
    requires { All (λ child. IsTrue (has_node (store_of arena.now) child)) (field_types fields.now) }
    ensures { result ≡ has_empty_term (fields_by (term_of (store_of arena.now)) fields.now) }
{
    let mut any = false;
    for field in fields {
        any = any | is_empty(arena, field.1);
    }
    any
}

// The fields whose type isn't unknown.
fn known_fields(
    alloc: Global,
    arena: &Arena<'_>,
    fields: &[(Label, TypeRef)],
) -> Result<List<(Label, TypeRef)>, AllocError>
    requires { All (λ child. IsTrue (has_node (store_of arena.now) child)) (field_types fields.now) }
    ensures { IfOk result (λ known. known ≡ known_ones (term_of (store_of arena.now)) fields.now) }
{
    let mut known = Vec::new(alloc);
    for field in fields {
        let unknown = is_unknown(arena, field.1);
        if !unknown {
            known.push((field.0.clone()?, field.1))?;
        }
    }
    Ok(List::of(known))
}
