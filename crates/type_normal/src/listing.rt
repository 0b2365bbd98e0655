ghost use Rattle.std.specs.Prelude.{◌≡◌, IsTrue, IfOk, All};
ghost use Rattle.type_arena.specs.Arena.{store_of};
ghost use Rattle.type_arena.specs.Meaning.{term_of, rows_by, fields_by};
ghost use Rattle.type_arena.specs.Store.{has as has_node, row_types, field_types};
ghost use Rattle.type_normal.specs.HeapFree.{lists, rows_list as rows_list_of, fields_list as fields_list_of};
ghost use Rattle.type_normal.specs.Listing.{IsRightAt};

use std::alloc::AllocError;
use std::collections::HashMap;
use type_arena::{Arena, Label, Nodes, Row, TypeRef};

/// Which types are known to list a name, by reference.
pub(crate) type Listings = HashMap<TypeRef, bool>;

// Whether a field of a name is listed, at some depth. Each node that is met is looked at once, and then remembered.
#[cycle(listings)]
fn lists_at(
    arena: &Arena<'_>,
    name: &Label,
    known: &mut Listings,
    at: TypeRef,
) -> Result<bool, AllocError>
    requires there { IsTrue (has_node (store_of arena.now) at) }
    requires right { IsRightAt name.now (store_of arena.now) known.old }
    ensures listed { IfOk result (λ listed. listed ≡ lists name.now (term_of (store_of arena.now) at)) }
    ensures right { IfOk result (λ listed. IsRightAt name.now (store_of arena.now) known.new) }
{
    if let Some(listed) = known.get(&at) {
        return Ok(*listed);
    }
    let rows = arena.node(at).rows.as_slice();
    let listed = rows_list(arena, name, known, rows)?;
    known.insert(at, listed)?;
    Ok(listed)
}

// Whether one of some rows lists a field of a name, at some depth.
#[cycle(listings)]
fn rows_list(
    arena: &Arena<'_>,
    name: &Label,
    known: &mut Listings,
    rows: &[Row],
) -> Result<bool, AllocError>
    requires there { All (λ child. IsTrue (has_node (store_of arena.now) child)) (row_types rows.now) }
    requires right { IsRightAt name.now (store_of arena.now) known.old }
    ensures listed { IfOk result (λ listed. listed ≡ rows_list_of name.now (rows_by (term_of (store_of arena.now)) rows.now)) }
    ensures right { IfOk result (λ listed. IsRightAt name.now (store_of arena.now) known.new) }
{
    let mut any = false;
    for row in rows {
        let listed = fields_list(arena, name, known, row.fields.as_slice())?;
        any = any | listed;
    }
    Ok(any)
}

/// Whether some fields have one of a name, at some depth.
#[cycle(listings)]
pub(crate) fn fields_list(
    arena: &Arena<'_>,
    name: &Label,
    known: &mut Listings,
    fields: &[(Label, TypeRef)],
) -> Result<bool, AllocError>
    requires there { All (λ child. IsTrue (has_node (store_of arena.now) child)) (field_types fields.now) }
    requires right { IsRightAt name.now (store_of arena.now) known.old }
    ensures listed { IfOk result (λ listed. listed ≡ fields_list_of name.now (fields_by (term_of (store_of arena.now)) fields.now)) }
    ensures right { IfOk result (λ listed. IsRightAt name.now (store_of arena.now) known.new) }
{
    let mut any = false;
    for field in fields {
        let listed = lists_at(arena, name, known, field.1)?;
        let own = field.0 == *name;
        any = any | own | listed;
    }
    Ok(any)
}
