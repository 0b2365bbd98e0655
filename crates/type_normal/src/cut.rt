ghost use Rattle.std.specs.Prelude.{◌≡◌, ◌∷◌, [], ◌&&◌, nat_le, List, true, IsTrue, IfOk, OnErr};
ghost use Rattle.std.specs.List.{list_any};
ghost use Rattle.luau_values.specs.Heap.{Heap};
ghost use Rattle.luau_values.specs.Value.{Value};
ghost use Rattle.type_arena.specs.Arena.{store_of};
ghost use Rattle.type_arena.specs.Meaning.{term_of};
ghost use Rattle.type_arena.specs.Store.{has as has_node};
ghost use Rattle.type_normal.specs.Adds.{Adds};
ghost use Rattle.type_normal.specs.Growing.{given_refs, IsClean};
ghost use Rattle.type_normal.specs.Cut.{is_small, cut_down as cut_down_term, cut_up as cut_up_term};
ghost use Rattle.type_normal.specs.Holds.{holds};
ghost use Rattle.type_normal.specs.Nodes.{few_rows, is_all_tables};

use crate::rows::{any_table, with_rows};
use crate::shape::{Shapes, shape_at};
use std::alloc::{AllocError, Global};
use type_arena::{Arena, List, Nodes, Row, TypeRef};

/// The type itself where it has at most 16 rows at every depth and a depth of at most 8; else what of it is in no row with
/// fields: its free part, and all tables if their row is there.
pub fn cut_down(alloc: Global, arena: &mut Arena<'_>, a: TypeRef) -> Result<TypeRef, AllocError>
    requires { IsTrue (has_node (store_of arena.old) a) }

    // The result by form, and by its values.
    ensures term { IfOk result (λ at. term_of (store_of arena.new) at ≡ cut_down_term (term_of (store_of arena.old) a)) }
    ensures values { IfOk result (λ at. (h : Heap) (v : Value) → holds h v (term_of (store_of arena.new) at) ≡ true → holds h v (term_of (store_of arena.old) a) ≡ true) }

    // The arena only gets nodes, and each home that is reached from the answer may be used.
    ensures there { IfOk result (λ at. IsTrue (has_node (store_of arena.new) at)) }
    ensures adds { IfOk result (λ at. Adds arena.old arena.new (record { refs = a ∷ []; literals = [] }) (at ∷ [])) }
    ensures clean { IfOk result (λ at. IsClean arena.old arena.new (given_refs (a ∷ [])) at) }
    ensures err { OnErr result (Adds arena.old arena.new (record { refs = a ∷ []; literals = [] }) []) }
{
    if is_small_at(alloc, arena, a)? {
        return Ok(a);
    }
    let found = arena.node(a);
    let rows = few(alloc, found.rows.as_slice())?;
    let node = with_rows(found, rows)?;
    let at = arena.intern(node)?;
    Ok(at)
}

/// The type itself where it has at most 16 rows at every depth and a depth of at most 8; else its free part and all tables.
pub fn cut_up(alloc: Global, arena: &mut Arena<'_>, a: TypeRef) -> Result<TypeRef, AllocError>
    requires { IsTrue (has_node (store_of arena.old) a) }

    // The result by form, and by its values.
    ensures term { IfOk result (λ at. term_of (store_of arena.new) at ≡ cut_up_term (term_of (store_of arena.old) a)) }
    ensures values { IfOk result (λ at. (h : Heap) (v : Value) → holds h v (term_of (store_of arena.old) a) ≡ true → holds h v (term_of (store_of arena.new) at) ≡ true) }

    // The arena only gets nodes, and each home that is reached from the answer may be used.
    ensures there { IfOk result (λ at. IsTrue (has_node (store_of arena.new) at)) }
    ensures adds { IfOk result (λ at. Adds arena.old arena.new (record { refs = a ∷ []; literals = [] }) (at ∷ [])) }
    ensures clean { IfOk result (λ at. IsClean arena.old arena.new (given_refs (a ∷ [])) at) }
    ensures err { OnErr result (Adds arena.old arena.new (record { refs = a ∷ []; literals = [] }) []) }
{
    if is_small_at(alloc, arena, a)? {
        return Ok(a);
    }
    let rows = any_table(alloc)?;
    let node = with_rows(arena.node(a), rows)?;
    let at = arena.intern(node)?;
    Ok(at)
}

// Whether a type has at most 16 rows at every depth and a depth of at most 8.
fn is_small_at(alloc: Global, arena: &Arena<'_>, a: TypeRef) -> Result<bool, AllocError>
    requires { IsTrue (has_node (store_of arena.now) a) }
    ensures { IfOk result (λ small. small ≡ is_small (term_of (store_of arena.now) a)) }
{
    let mut known = Shapes::new(alloc);
    let shape = shape_at(arena, &mut known, a)?;
    Ok(shape.few_rows & (shape.depth <= 8))
}

// The row of all tables, where it is among some rows.
fn few(alloc: Global, rows: &[Row]) -> Result<List<Row>, AllocError>
    ensures { IfOk result (λ kept. kept ≡ few_rows rows.now) }
{
    if has_all(rows) {
        any_table(alloc)
    } else {
        Ok(List::of(Vec::new(alloc)))
    }
}

// Whether the row of all tables is among some rows.
fn has_all(rows: &[Row]) -> bool
    ensures { result ≡ list_any is_all_tables rows.now }
{
    rows.iter().any(is_all)
}

// Whether a row is that of all tables.
fn is_all(row: &Row) -> bool
    ensures { result ≡ is_all_tables row.now }
{
    !row.frozen & row.fields.as_slice().is_empty()
}
