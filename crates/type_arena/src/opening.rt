ghost use Rattle.std.specs.Prelude.{◌≡◌, ◌≤◌, [], length, IsTrue, IsOk, IfOk};
ghost use Rattle.type_arena.specs.Arena.{home_of, nodes_of, below_of, store_of};
ghost use Rattle.type_arena.specs.Meaning.{term_of};
ghost use Rattle.type_arena.specs.Shelf.{shelf_store};
ghost use Rattle.type_arena.specs.Store.{Keeps, has as has_node};
ghost use Rattle.type_arena.specs.declared.node.TypeRef.{TypeRef};

use crate::arena::Arena;
use crate::shelves::Shelf;
use indexmap::IndexSet;
use std::alloc::{AllocError, Global};

/// An arena without nodes of its own, over a shelf. Takes no memory before the first node.
pub fn over<'a>(alloc: Global, shelf: Shelf<'a>, home: u32) -> Result<Arena<'a>, AllocError>
    requires { length (shelf_store shelf) ≤ home }
    ensures ok { IsOk result }
    ensures below { IfOk result (λ arena. below_of arena ≡ shelf_store shelf.entry) }
    ensures home { IfOk result (λ arena. home_of arena ≡ home) }
    ensures empty { IfOk result (λ arena. nodes_of arena ≡ []) }

    // Every reference of the shelf keeps its meaning.
    ensures keeps { IfOk result (λ arena. Keeps (shelf_store shelf.entry) (store_of arena)) }
    ensures kept { IfOk result (λ arena. (at : TypeRef) → IsTrue (has_node (shelf_store shelf.entry) at) → term_of (store_of arena) at ≡ term_of (shelf_store shelf.entry) at) }
{
    Ok(Arena {
        shelf,
        home,
        own: IndexSet::new(alloc),
    })
}
