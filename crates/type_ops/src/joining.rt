ghost use Rattle.std.specs.Prelude.{◌≡◌, ◌∷◌, ◌++◌, [], ◌||◌, IsTrue, IfOk, OnOk, OnErr, All};
ghost use Rattle.luau_values.specs.Heap.{Heap};
ghost use Rattle.luau_values.specs.Value.{Value};
ghost use Rattle.type_arena.specs.Arena.{store_of};
ghost use Rattle.type_arena.specs.Meaning.{term_of};
ghost use Rattle.type_arena.specs.Store.{has as has_node, row_types};
ghost use Rattle.type_normal.specs.Adds.{Adds};
ghost use Rattle.type_normal.specs.Holds.{holds};
ghost use Rattle.type_normal.specs.Operations.{union as union_term};
ghost use Rattle.type_normal.specs.Growing.{given_refs, IsClean};
ghost use Rattle.type_ops.specs.Joined.{either_node, union_node};

use crate::sets::either;
use crate::sorting::rows_in_order;
use std::alloc::{AllocError, Global};
use type_arena::{Arena, List, Node, Nodes, Row, TypeRef};

/// The values of one of two types. After want of memory the arena holds what it held and perhaps more nodes.
pub fn union(
    alloc: Global,
    arena: &mut Arena<'_>,
    a: TypeRef,
    b: TypeRef,
) -> Result<TypeRef, AllocError>
    requires first { IsTrue (has_node (store_of arena.old) a) }
    requires second { IsTrue (has_node (store_of arena.old) b) }

    // The result by form, and by its values.
    ensures term { IfOk result (λ at. term_of (store_of arena.new) at ≡ union_term (term_of (store_of arena.old) a) (term_of (store_of arena.old) b)) }
    ensures values { IfOk result (λ at. (h : Heap) (v : Value) → holds h v (term_of (store_of arena.new) at) ≡ holds h v (term_of (store_of arena.old) a) || holds h v (term_of (store_of arena.old) b)) }

    // The arena only gets nodes, and each home that is reached from the answer may be used.
    ensures there { IfOk result (λ at. IsTrue (has_node (store_of arena.new) at)) }
    ensures adds { IfOk result (λ at. Adds arena.old arena.new (record { refs = a ∷ b ∷ []; literals = [] }) (at ∷ [])) }
    ensures clean { IfOk result (λ at. IsClean arena.old arena.new (given_refs (a ∷ b ∷ [])) at) }
    ensures err { OnErr result (Adds arena.old arena.new (record { refs = a ∷ b ∷ []; literals = [] }) []) }
{
    let node = joined(alloc, arena, arena.node(a), arena.node(b))?;
    let at = arena.intern(node)?;
    Ok(at)
}

// The node of what one of two nodes of an arena has.
fn joined(alloc: Global, arena: &Arena<'_>, a: &Node, b: &Node) -> Result<Node, AllocError>
    requires first { All (λ child. IsTrue (has_node (store_of arena.now) child)) (row_types a.now.rows) }
    requires second { All (λ child. IsTrue (has_node (store_of arena.now) child)) (row_types b.now.rows) }
    ensures { IfOk result (λ n. n ≡ union_node (term_of (store_of arena.now)) a.now b.now) }
{
    let mut rows = Vec::new(alloc);
    copy_rows(&mut rows, a.rows.as_slice())?;
    copy_rows(&mut rows, b.rows.as_slice())?;
    let rows = rows_in_order(alloc, arena, rows)?;
    let node = either_part(alloc, a, b, rows)?;
    Ok(node)
}

// The node of what one of two nodes has, with other rows.
fn either_part(alloc: Global, a: &Node, b: &Node, rows: List<Row>) -> Result<Node, AllocError>
    ensures { IfOk result (λ n. n ≡ either_node a.now b.now rows) }
{
    let strings = either(alloc, a.strings.clone()?, b.strings.clone()?)?;
    let functions = either(alloc, a.functions.clone()?, b.functions.clone()?)?;
    Ok(Node {
        nil: a.nil | b.nil,
        truth: a.truth | b.truth,
        falsity: a.falsity | b.falsity,
        number: a.number | b.number,
        other: a.other | b.other,
        strings,
        functions,
        rows,
    })
}

// Puts copies of rows behind some.
fn copy_rows(to: &mut Vec<Row>, from: &[Row]) -> Result<(), AllocError>
    ensures { OnOk result (to.new.items ≡ to.old.items ++ from.now) }
{
    for row in from {
        to.push(row.clone()?)?;
    }
    Ok(())
}
