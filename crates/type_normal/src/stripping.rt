ghost use Rattle.std.specs.Prelude.{◌≡◌, ℕ, ◌∷◌, [], List, true, false, All, IsTrue, IfOk, OnErr};
ghost use Rattle.luau_values.specs.Heap.{Heap, is_frozen, with_field};
ghost use Rattle.luau_values.specs.Later.{Later};
ghost use Rattle.luau_values.specs.Value.{Value};
ghost use Rattle.type_arena.specs.Arena.{store_of};
ghost use Rattle.type_arena.specs.Meaning.{term_of};
ghost use Rattle.type_arena.specs.Store.{has as has_node, row_types};
ghost use Rattle.type_normal.specs.Adds.{Adds};
ghost use Rattle.type_normal.specs.Growing.{given_refs, IsClean};
ghost use Rattle.type_normal.specs.HeapFree.{strip as strip_term, strip_at as strip_at_term};
ghost use Rattle.type_normal.specs.Holds.{holds};
ghost use Rattle.type_normal.specs.Listing.{stable_at};
ghost use Rattle.type_normal.specs.Nodes.{heap_free_ones};
ghost use Rattle.type_normal.specs.Shape.{IsRight};

use crate::listing::{Listings, fields_list};
use crate::rows::with_rows;
use crate::shape::{Shapes, fields_shape};
use std::alloc::{AllocError, Global};
use type_arena::{Arena, Label, List, Nodes, Row, TypeRef};

/// What is left of a type after the heap may have changed: each row that isn't heap-free is dropped.
pub fn strip(alloc: Global, arena: &mut Arena<'_>, a: TypeRef) -> Result<TypeRef, AllocError>
    requires { IsTrue (has_node (store_of arena.old) a) }

    // The result by form, and by its values: it is smaller, and its values stay values of it.
    ensures term { IfOk result (λ at. term_of (store_of arena.new) at ≡ strip_term (term_of (store_of arena.old) a)) }
    ensures values { IfOk result (λ at. (h : Heap) (v : Value) → holds h v (term_of (store_of arena.new) at) ≡ true → holds h v (term_of (store_of arena.old) a) ≡ true) }
    ensures later { IfOk result (λ at. (h g : Heap) (v : Value) → Later h g → holds h v (term_of (store_of arena.new) at) ≡ true → holds g v (term_of (store_of arena.new) at) ≡ true) }

    // The arena only gets nodes, and each home that is reached from the answer may be used.
    ensures there { IfOk result (λ at. IsTrue (has_node (store_of arena.new) at)) }
    ensures adds { IfOk result (λ at. Adds arena.old arena.new (record { refs = a ∷ []; literals = [] }) (at ∷ [])) }
    ensures clean { IfOk result (λ at. IsClean arena.old arena.new (given_refs (a ∷ [])) at) }
    ensures err { OnErr result (Adds arena.old arena.new (record { refs = a ∷ []; literals = [] }) []) }
{
    let found = arena.node(a);
    let rows = stable_rows(alloc, arena, found.rows.as_slice())?;
    let node = with_rows(found, rows)?;
    let at = arena.intern(node)?;
    Ok(at)
}

// The rows that are heap-free.
fn stable_rows(alloc: Global, arena: &Arena<'_>, rows: &[Row]) -> Result<List<Row>, AllocError>
    requires { All (λ child. IsTrue (has_node (store_of arena.now) child)) (row_types rows.now) }
    ensures { IfOk result (λ kept. kept ≡ heap_free_ones (term_of (store_of arena.now)) rows.now) }
{
    let mut known = Shapes::new(alloc);
    let mut kept = Vec::new(alloc);
    for row in rows {
        let fields = fields_shape(arena, &mut known, row.fields.as_slice())?;
        if fields.as_row(row).heap_free {
            kept.push(row.clone()?)?;
        }
    }
    Ok(List::of(kept))
}

/// What is left of a type after fields of a name may have been written: each row that isn't heap-free and lists a field of
/// the name, at some depth, is dropped.
pub fn strip_at(
    alloc: Global,
    arena: &mut Arena<'_>,
    a: TypeRef,
    name: &Label,
) -> Result<TypeRef, AllocError>
    requires { IsTrue (has_node (store_of arena.old) a) }

    // The result by form, and by its values: it is smaller, and its values stay values of it after such a write.
    ensures term { IfOk result (λ at. term_of (store_of arena.new) at ≡ strip_at_term name.now (term_of (store_of arena.old) a)) }
    ensures values { IfOk result (λ at. (h : Heap) (v : Value) → holds h v (term_of (store_of arena.new) at) ≡ true → holds h v (term_of (store_of arena.old) a) ≡ true) }
    ensures written { IfOk result (λ at. (h : Heap) (t : ℕ) (u v : Value) → is_frozen h t ≡ false → holds h v (term_of (store_of arena.new) at) ≡ true → holds (with_field t name.now u h) v (term_of (store_of arena.new) at) ≡ true) }

    // The arena only gets nodes, and each home that is reached from the answer may be used.
    ensures there { IfOk result (λ at. IsTrue (has_node (store_of arena.new) at)) }
    ensures adds { IfOk result (λ at. Adds arena.old arena.new (record { refs = a ∷ []; literals = [] }) (at ∷ [])) }
    ensures clean { IfOk result (λ at. IsClean arena.old arena.new (given_refs (a ∷ [])) at) }
    ensures err { OnErr result (Adds arena.old arena.new (record { refs = a ∷ []; literals = [] }) []) }
{
    let found = arena.node(a);
    let rows = stable_rows_at(alloc, arena, name, found.rows.as_slice())?;
    let node = with_rows(found, rows)?;
    let at = arena.intern(node)?;
    Ok(at)
}

// The rows that are heap-free or list no field of a name.
fn stable_rows_at(
    alloc: Global,
    arena: &Arena<'_>,
    name: &Label,
    rows: &[Row],
) -> Result<List<Row>, AllocError>
    requires { All (λ child. IsTrue (has_node (store_of arena.now) child)) (row_types rows.now) }
    ensures { IfOk result (λ kept. kept ≡ stable_at name.now (term_of (store_of arena.now)) rows.now) }
{
    let mut known = Shapes::new(alloc);
    let mut listings = Listings::new(alloc);
    let mut kept = Vec::new(alloc);
    for row in rows {
        let slice = row.fields.as_slice();
        let fields = fields_shape(arena, &mut known, slice)?;
        let listed = fields_list(arena, name, &mut listings, slice)?;
        let stays = fields.as_row(row).heap_free | !listed;
        if stays {
            kept.push(row.clone()?)?;
        }
    }
    Ok(List::of(kept))
}
