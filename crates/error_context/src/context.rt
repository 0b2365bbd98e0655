ghost use Rattle.std.specs.Prelude.{◌≡◌, [], ℕ, IfOk, IfSome, Contains};
ghost use Rattle.std.specs.Option.{option_map_or};
ghost use Rattle.type_arena.specs.Arena.{store_of};
ghost use Rattle.type_arena.specs.Meaning.{term_of};
ghost use Rattle.type_arena.specs.Term.{never};
ghost use Rattle.type_arena.specs.declared.arena.Arena.{Arena as AnArena};
ghost use Rattle.type_normal.specs.Nodes.{is_nil};
ghost use Rattle.error_context.specs.Entries.{context_of, entry_at, refs_in, IsContext};

use luau_tree::{List, LocalId};
use std::alloc::{AllocError, Global};
use type_arena::TypeRef;

/// For each local a set of values with which code is certain to fail from a point on; an absent
/// local has none.
#[derive(Debug, Drop)]
pub struct Context {
    /// Each local with its set, in the order of the locals. No set is empty.
    pub entries: List<(LocalId, TypeRef)>,
}

impl Context {
    /// The context in which nothing makes the code fail. Takes no memory.
    pub fn none(alloc: Global) -> Context
        ensures empty { result.entries ≡ [] }
        ensures sets { (arena : AnArena) (local : ℕ) → context_of arena result.entries local ≡ never }
        ensures context { (arena : AnArena) → IsContext arena result.entries }
    {
        let none = Vec::new(alloc);
        let entries = List::of(none);
        Context { entries }
    }

    /// Whether nothing makes the code fail. Takes no memory.
    pub fn is_none(&self) -> bool
        ensures { result ≡ is_nil self.now.entries }
    {
        self.entries.as_slice().is_empty()
    }

    /// A copy.
    pub fn copied(&self, alloc: Global) -> Result<Context, AllocError>
        ensures { IfOk result (λ made. made.entries ≡ self.now.entries) }
    {
        let old = self.entries.as_slice();
        let copy = Vec::from_slice(alloc, old)?;
        let entries = List::of(copy);
        Ok(Context { entries })
    }

    /// The set of a local, if it has one. Takes no memory.
    pub fn set_of(&self, local: LocalId) -> Option<TypeRef>
        ensures entry { result ≡ entry_at self.now.entries local.0 }
        ensures set { (arena : AnArena) → context_of arena self.now.entries local.0
            ≡ option_map_or (term_of (store_of arena)) result never }
        ensures among { IfSome result (Contains (refs_in self.now.entries)) }
    {
        let entries = self.entries.as_slice();
        entry_of(entries, local)
    }
}

// The reference of a local's entry, if it has one.
fn entry_of(entries: &[(LocalId, TypeRef)], local: LocalId) -> Option<TypeRef>
    ensures { result ≡ entry_at entries.now local.0 }
{
    for entry in entries {
        if entry.0.0 == local.0 {
            return Some(entry.1);
        }
    }
    None
}
