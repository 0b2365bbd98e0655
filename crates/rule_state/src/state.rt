ghost use Rattle.std.proofs.Props.{props};
ghost use Rattle.type_arena.specs.Arena.{home_of};
ghost use Rattle.local_types.specs.Entries.{arena_of};
ghost use Rattle.local_types.proofs.PropFacts.{map_is_prop};
ghost use mathlib.Core.Sum.{⊎_set};
ghost use Rattle.std.specs.Prelude.{◌≡◌, map};
ghost use Rattle.rule_state.specs.Sound.{IsSound, Knows};

use crate::point::Seen;
use local_types::{LocalTypes, Point};
use std::alloc::Global;
use std::collections::BTreeMap;
use type_arena::TypeRef;
use type_decl::SigTable;

/// What is at hand while the rules of a module are applied. Each call changes it as its clause says, or fails for want of
/// memory; then the state is sound, but says nothing of use.
#[derive(Drop)]
pub struct RuleState<'a> {
    pub(crate) alloc: Global,
    /// The home of the module's types.
    pub(crate) home: u32,
    /// The types, and the maps from locals to types.
    pub(crate) types: LocalTypes<'a>,
    /// The types that came from elsewhere: those of the declared builtins and of imports.
    pub(crate) outside: Vec<TypeRef>,
    /// The declared builtins, whose types came from elsewhere.
    pub(crate) table: &'a SigTable,
    /// What static requires give that lead to modules, by the numbers of their calls.
    pub(crate) imports: BTreeMap<u32, TypeRef>,
    /// The type at hand, and those that were put aside.
    pub(crate) value: TypeRef,
    pub(crate) held: Vec<TypeRef>,
    /// Lists of types that are being made, the innermost last.
    pub(crate) lists: Vec<Vec<TypeRef>>,
    /// What is known of the locals, and what was known where that was put aside.
    pub(crate) point: Point,
    pub(crate) saved: Vec<Point>,
    /// Lists of ends of branches, the innermost last.
    pub(crate) ends: Vec<Vec<Point>>,
    /// What was seen, and the places in it of expressions whose type is still to come.
    pub(crate) seen: Vec<Seen>,
    pub(crate) pending: Vec<usize>,
    ghost known: { Knows types outside.items table.now imports } by { Prim.hlevel (props, ⊎_set) },
    ghost at_home: { home ≡ home_of (arena_of types) } by { Prim.hlevel props },
    ghost sound: { IsSound types outside.items value held.items (map (λ list. list.items) lists.items) point saved.items (map (λ list. list.items) ends.items) seen.items } by { Prim.hlevel (props, map_is_prop) },
}
