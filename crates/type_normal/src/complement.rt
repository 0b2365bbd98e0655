ghost use Rattle.std.specs.Prelude.{◌≡◌, ℕ, ◌∷◌, [], List, true, not, IsTrue, IfOk, OnErr};
ghost use Rattle.luau_values.specs.Heap.{Heap};
ghost use Rattle.luau_values.specs.Value.{Value};
ghost use Rattle.type_arena.specs.Arena.{store_of};
ghost use Rattle.type_arena.specs.Meaning.{term_of};
ghost use Rattle.type_arena.specs.Store.{has as has_node, refs_of};
ghost use Rattle.type_arena.specs.Term.{free_of};
ghost use Rattle.type_normal.specs.Adds.{Adds};
ghost use Rattle.type_normal.specs.Growing.{given_refs, IsClean};
ghost use Rattle.type_normal.specs.Free.{outside_free};
ghost use Rattle.type_normal.specs.Holds.{holds};
ghost use Rattle.type_normal.specs.Nodes.{complement_of, swapped};
ghost use Rattle.type_normal.specs.Operations.{not_free as not_free_term, is_flat};

use std::alloc::{AllocError, Global};
use type_arena::{Among, Arena, FnName, Label, List, Node, Nodes, Row, TypeRef};

/// The values that don't belong to a type whose rows are none, or the row of all tables alone. After want of memory the
/// arena holds what it held.
pub fn not_free(alloc: Global, arena: &mut Arena<'_>, a: TypeRef) -> Result<TypeRef, AllocError>
    requires { IsTrue (has_node (store_of arena.old) a) }

    // The result by form, and by its values.
    ensures term { IfOk result (λ at. term_of (store_of arena.new) at ≡ not_free_term (term_of (store_of arena.old) a)) }
    ensures values { IfOk result (λ at. is_flat (term_of (store_of arena.old) a) ≡ true → (h : Heap) (v : Value) → holds h v (term_of (store_of arena.new) at) ≡ not (holds h v (term_of (store_of arena.old) a))) }

    // The arena only gets nodes, and each home that is reached from the answer may be used.
    ensures there { IfOk result (λ at. IsTrue (has_node (store_of arena.new) at)) }
    ensures adds { IfOk result (λ at. Adds arena.old arena.new (record { refs = a ∷ []; literals = [] }) (at ∷ [])) }
    ensures clean { IfOk result (λ at. IsClean arena.old arena.new (given_refs (a ∷ [])) at) }
    ensures err { OnErr result (Adds arena.old arena.new (record { refs = a ∷ []; literals = [] }) []) }
{
    let node = complement(alloc, arena.node(a))?;
    arena.intern(node)
}

// The node that has what another hasn't: all tables where it has no row, and else none.
fn complement(alloc: Global, node: &Node) -> Result<Node, AllocError>
    ensures { IfOk result (λ n. n ≡ complement_of node.now) }
{
    let rows = other_rows(alloc, node)?;
    Ok(Node {
        nil: !node.nil,
        truth: !node.truth,
        falsity: !node.falsity,
        number: !node.number,
        other: !node.other,
        strings: other_strings(&node.strings)?,
        functions: other_functions(&node.functions)?,
        rows,
    })
}

// The row of all tables where a node has no row, and else none.
fn other_rows(alloc: Global, node: &Node) -> Result<List<Row>, AllocError>
    ensures { IfOk result (λ rows. rows ≡ (complement_of node.now).rows) }
{
    let mut rows = Vec::new(alloc);
    if node.rows.as_slice().is_empty() {
        rows.push(Row {
            frozen: false,
            fields: List::of(Vec::new(alloc)),
        })?;
    }
    Ok(List::of(rows))
}

// The strings that a set hasn't.
fn other_strings(set: &Among<Label>) -> Result<Among<Label>, AllocError>
    ensures { IfOk result (λ s. s ≡ swapped set.now) }
{
    Ok(match set {
        Among::Only(members) => Among::AllBut(members.clone()?),
        Among::AllBut(members) => Among::Only(members.clone()?),
    })
}

// The functions that a set hasn't.
fn other_functions(set: &Among<FnName>) -> Result<Among<FnName>, AllocError>
    ensures { IfOk result (λ s. s ≡ swapped set.now) }
{
    Ok(match set {
        Among::Only(members) => Among::AllBut(members.clone()?),
        Among::AllBut(members) => Among::Only(members.clone()?),
    })
}
