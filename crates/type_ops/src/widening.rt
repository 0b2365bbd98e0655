ghost use Rattle.std.specs.Prelude.{◌≡◌, ℕ, ◌∷◌, [], List as Items, true, false, IsTrue, IfOk, OnErr, All};
ghost use Rattle.luau_values.specs.Heap.{Heap, is_frozen, with_field};
ghost use Rattle.luau_values.specs.Later.{Later};
ghost use Rattle.luau_values.specs.Value.{Value};
ghost use Rattle.type_arena.specs.Arena.{store_of};
ghost use Rattle.type_arena.specs.Meaning.{term_of, rows_by, fields_by};
ghost use Rattle.type_arena.specs.Store.{has as has_node, row_types, field_types};
ghost use Rattle.type_normal.specs.Adds.{Adds};
ghost use Rattle.type_normal.specs.HeapFree.{widen as widen_term, widen_at as widen_at_term};
ghost use Rattle.type_normal.specs.Holds.{holds};
ghost use Rattle.type_ops.specs.Changed.{changed, changed_fields, raw_rows, AreChanges};
ghost use Rattle.type_normal.specs.Growing.{given_refs, IsClean};

use crate::copying::copy_node;
use crate::normalizing::normal_rows;
use crate::written::{Written, may_be_written};
use std::alloc::{AllocError, Global};
use std::collections::HashMap;
use type_arena::{Arena, Label, List, Nodes, Row, TypeRef};

/// What types are known to become, by reference.
type Changes = HashMap<TypeRef, TypeRef>;

/// What a type becomes after the heap may have changed: a row that isn't frozen becomes that of all tables, and in a frozen
/// row the type of each field is widened. After want of memory the arena holds what it held and perhaps more nodes.
pub fn widen(alloc: Global, arena: &mut Arena<'_>, a: TypeRef) -> Result<TypeRef, AllocError>
    requires { IsTrue (has_node (store_of arena.old) a) }

    // The result by form, and by its values: it is larger, and its values stay values of it.
    ensures term { IfOk result (λ at. term_of (store_of arena.new) at ≡ widen_term (term_of (store_of arena.old) a)) }
    ensures values { IfOk result (λ at. (h : Heap) (v : Value) → holds h v (term_of (store_of arena.old) a) ≡ true → holds h v (term_of (store_of arena.new) at) ≡ true) }
    ensures later { IfOk result (λ at. (h g : Heap) (v : Value) → Later h g → holds h v (term_of (store_of arena.new) at) ≡ true → holds g v (term_of (store_of arena.new) at) ≡ true) }

    // The arena only gets nodes, and each home that is reached from the answer may be used.
    ensures there { IfOk result (λ at. IsTrue (has_node (store_of arena.new) at)) }
    ensures adds { IfOk result (λ at. Adds arena.old arena.new (record { refs = a ∷ []; literals = [] }) (at ∷ [])) }
    ensures clean { IfOk result (λ at. IsClean arena.old arena.new (given_refs (a ∷ [])) at) }
    ensures err { OnErr result (Adds arena.old arena.new (record { refs = a ∷ []; literals = [] }) []) }
{
    let mut known = Changes::new(alloc);
    let at = change(alloc, arena, &mut known, &Written::AnyField, a)?;
    Ok(at)
}

/// What a type becomes after fields of a name may have been written: rows that aren't frozen lose the field, at every depth.
/// After want of memory the arena holds what it held and perhaps more nodes.
pub fn widen_at(
    alloc: Global,
    arena: &mut Arena<'_>,
    a: TypeRef,
    name: &Label,
) -> Result<TypeRef, AllocError>
    requires { IsTrue (has_node (store_of arena.old) a) }

    // The result by form, and by its values: it is larger, and its values stay values of it after such a write.
    ensures term { IfOk result (λ at. term_of (store_of arena.new) at ≡ widen_at_term name.now (term_of (store_of arena.old) a)) }
    ensures values { IfOk result (λ at. (h : Heap) (v : Value) → holds h v (term_of (store_of arena.old) a) ≡ true → holds h v (term_of (store_of arena.new) at) ≡ true) }
    ensures written { IfOk result (λ at. (h : Heap) (t : ℕ) (u v : Value) → is_frozen h t ≡ false → holds h v (term_of (store_of arena.new) at) ≡ true → holds (with_field t name.now u h) v (term_of (store_of arena.new) at) ≡ true) }

    // The arena only gets nodes, and each home that is reached from the answer may be used.
    ensures there { IfOk result (λ at. IsTrue (has_node (store_of arena.new) at)) }
    ensures adds { IfOk result (λ at. Adds arena.old arena.new (record { refs = a ∷ []; literals = [] }) (at ∷ [])) }
    ensures clean { IfOk result (λ at. IsClean arena.old arena.new (given_refs (a ∷ [])) at) }
    ensures err { OnErr result (Adds arena.old arena.new (record { refs = a ∷ []; literals = [] }) []) }
{
    let written = Written::Named(name.clone()?);
    let mut known = Changes::new(alloc);
    let at = change(alloc, arena, &mut known, &written, a)?;
    Ok(at)
}

// What a type becomes. Each node that is met is looked at once, and what it becomes is then remembered.
#[cycle(changes)]
fn change(
    alloc: Global,
    arena: &mut Arena<'_>,
    known: &mut Changes,
    written: &Written,
    at: TypeRef,
) -> Result<TypeRef, AllocError>
    requires there { IsTrue (has_node (store_of arena.old) at) }
    requires right { AreChanges written.now arena.old known.old }
    ensures term { IfOk result (λ new. term_of (store_of arena.new) new ≡ changed written.now (term_of (store_of arena.old) at)) }
    ensures there { IfOk result (λ new. IsTrue (has_node (store_of arena.new) new)) }
    ensures right { IfOk result (λ new. AreChanges written.now arena.new known.new) }
    ensures clean { IfOk result (λ new. IsClean arena.old arena.new (given_refs (at ∷ [])) new) }
    ensures adds { Adds arena.old arena.new (given_refs (at ∷ [])) [] }
{
    if let Some(new) = known.get(&at) {
        return Ok(*new);
    }
    let mut node = copy_node(arena.node(at))?;
    let raw = change_rows(alloc, arena, known, written, node.rows.as_slice())?;
    let rows = normal_rows(alloc, arena, raw.as_slice())?;
    node.rows = rows;
    let new = arena.intern(node)?;
    known.insert(at, new)?;
    Ok(new)
}

// What rows become, before they are put in normal form.
#[cycle(changes)]
fn change_rows(
    alloc: Global,
    arena: &mut Arena<'_>,
    known: &mut Changes,
    written: &Written,
    rows: &[Row],
) -> Result<Vec<Row>, AllocError>
    requires there { All (λ child. IsTrue (has_node (store_of arena.old) child)) (row_types rows.now) }
    requires right { AreChanges written.now arena.old known.old }
    ensures rows { IfOk result (λ raw. rows_by (term_of (store_of arena.new)) raw.items ≡ raw_rows written.now (rows_by (term_of (store_of arena.old)) rows.now)) }
    ensures there { IfOk result (λ raw. All (λ child. IsTrue (has_node (store_of arena.new) child)) (row_types raw.items)) }
    ensures right { IfOk result (λ raw. AreChanges written.now arena.new known.new) }
    ensures clean { IfOk result (λ raw. All (IsClean arena.old arena.new (given_refs (row_types rows.now))) (row_types raw.items)) }
    ensures adds { Adds arena.old arena.new (given_refs (row_types rows.now)) [] }
{
    let mut raw = Vec::new(alloc);
    for row in rows {
        let slice = row.fields.as_slice();
        let fields = change_fields(alloc, arena, known, written, row.frozen, slice)?;
        raw.push(Row {
            frozen: row.frozen,
            fields,
        })?;
    }
    Ok(raw)
}

// What the fields of a row become.
#[cycle(changes)]
fn change_fields(
    alloc: Global,
    arena: &mut Arena<'_>,
    known: &mut Changes,
    written: &Written,
    frozen: bool,
    fields: &[(Label, TypeRef)],
) -> Result<List<(Label, TypeRef)>, AllocError>
    requires there { All (λ child. IsTrue (has_node (store_of arena.old) child)) (field_types fields.now) }
    requires right { AreChanges written.now arena.old known.old }
    ensures fields { IfOk result (λ kept. fields_by (term_of (store_of arena.new)) kept ≡ changed_fields written.now frozen (fields_by (term_of (store_of arena.old)) fields.now)) }
    ensures there { IfOk result (λ kept. All (λ child. IsTrue (has_node (store_of arena.new) child)) (field_types kept)) }
    ensures right { IfOk result (λ kept. AreChanges written.now arena.new known.new) }
    ensures clean { IfOk result (λ kept. All (IsClean arena.old arena.new (given_refs (field_types fields.now))) (field_types kept)) }
    ensures adds { Adds arena.old arena.new (given_refs (field_types fields.now)) [] }
{
    let mut kept = Vec::new(alloc);
    for field in fields {
        let stays = frozen | !may_be_written(written, &field.0);
        if !stays {
            continue;
        }
        let at = change(alloc, arena, known, written, field.1)?;
        kept.push((field.0.clone()?, at))?;
    }
    Ok(List::of(kept))
}
