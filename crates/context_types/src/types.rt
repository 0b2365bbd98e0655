ghost use Rattle.std.proofs.Props.{props};
ghost use Rattle.type_arena.specs.Arena.{store_of};
ghost use Rattle.subtype_memory.specs.Memory.{IsRight};
ghost use Rattle.context_types.specs.Confined.{IsConfined};

use std::alloc::Global;
use subtype_memory::Remembered;
use type_arena::{Arena, TypeRef};

/// An arena of types, in which sets of values and contexts are made.
#[derive(Drop)]
pub struct ContextTypes<'a> {
    pub(crate) arena: Arena<'a>,
    /// The types that came from elsewhere: those of the declared builtins and of imports.
    pub(crate) outside: &'a [TypeRef],
    /// Which types were found to be below others.
    pub(crate) found: Remembered,
    ghost confined: { IsConfined arena outside.now } by { Prim.hlevel props },
    ghost right: { IsRight (store_of arena) found } by { Prim.hlevel props },
}

impl<'a> ContextTypes<'a> {
    ghost use Rattle.std.specs.Prelude.{◌≡◌};
    ghost use Rattle.context_types.specs.Types.{arena_of, outside_of};

    /// The types of an arena. They lead to no home but their own, those to which the arenas below lead, and those of the types
    /// that came from elsewhere.
    pub fn new(alloc: Global, arena: Arena<'a>, outside: &'a [TypeRef]) -> ContextTypes<'a>
        requires { IsConfined arena outside.now }
        ensures same { arena_of result ≡ arena.entry }
        ensures outside { outside_of result ≡ outside.now }
    {
        ContextTypes {
            arena,
            outside,
            found: Remembered::new(alloc),
        }
    }

    /// The arena, with all types that were made.
    pub fn into_arena(self) -> Arena<'a>
        ensures same { result ≡ arena_of self.entry }
        ensures confined { IsConfined result (outside_of self.entry) }
    {
        self.arena
    }
}
