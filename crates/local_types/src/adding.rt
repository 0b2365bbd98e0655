ghost use Rattle.std.specs.Prelude.{◌≡◌, ℕ, ◌<◌, ◌∷◌, [], All, IsTrue, IfOk, length};
ghost use Rattle.type_arena.specs.Store.{has as has_node};
ghost use Rattle.local_types.specs.Entries.{arena_of, arenas_of, type_of, entry_of, entries_of_node, with_entry, IsMap};
ghost use Rattle.local_types.specs.Growing.{Grows};
ghost use Rattle.local_types.specs.Maps.{by_number, types_in, places_in};

use crate::node::{LocalMap, MapNode, Parts};
use crate::types::LocalTypes;
use std::alloc::{AllocError, Global};
use type_arena::{Arena, TypeRef};

impl<'a> LocalTypes<'a> {
    /// No map yet, over an arena. Takes no memory.
    pub fn new(alloc: Global, arena: Arena<'a>) -> LocalTypes<'a>
        ensures arena { arena_of result ≡ arena.entry }
        ensures empty { result.nodes.items ≡ [] }
    {
        LocalTypes {
            arena,
            nodes: Vec::new(alloc),
        }
    }

    /// The arena with all types. The maps are dropped.
    pub fn into_arena(self) -> Arena<'a>
        ensures { result ≡ arena_of self.entry }
    {
        self.arena
    }

    /// The map that has one type for every local.
    pub fn everywhere(&mut self, at: TypeRef) -> Result<LocalMap, AllocError>
        requires { IsTrue (has_node (arenas_of self.old) at) }
        ensures entries { IfOk result (λ map. (local : ℕ) → entry_of self.new map local ≡ type_of self.old at) }
        ensures map { IfOk result (IsMap self.new) }
        ensures grows { Grows self.old self.new (at ∷ []) }
    {
        self.push(MapNode::All(at))
    }

    /// The map with another type for one local. The map that was there stays as it was.
    pub fn put(&mut self, map: LocalMap, local: u32, at: TypeRef) -> Result<LocalMap, AllocError>
        requires map { IsMap self.old map }
        requires there { IsTrue (has_node (arenas_of self.old) at) }
        ensures entries { IfOk result (λ new. (other : ℕ) → entry_of self.new new other ≡ with_entry local (type_of self.old at) (entry_of self.old map) other) }
        ensures map { IfOk result (IsMap self.new) }
        ensures grows { Grows self.old self.new (at ∷ []) }
    {
        let Parts { here, odd, even } = self.parts(map);
        if local == 0 {
            return self.split(Parts {
                here: at,
                odd,
                even,
            });
        }
        let below = local - 1;
        if below % 2 == 0 {
            let odd = self.put(odd, below / 2, at)?;
            self.split(Parts { here, odd, even })
        } else {
            let even = self.put(even, below / 2, at)?;
            self.split(Parts { here, odd, even })
        }
    }

    // The map with these parts.
    pub(crate) fn split(&mut self, parts: Parts) -> Result<LocalMap, AllocError>
        requires there { IsTrue (has_node (arenas_of self.old) parts.here) }
        requires odd { IsMap self.old parts.odd }
        requires even { IsMap self.old parts.even }
        ensures entries { IfOk result (λ map. (local : ℕ) → entry_of self.new map local ≡ by_number (type_of self.old parts.here) (entry_of self.old parts.odd) (entry_of self.old parts.even) local) }
        ensures map { IfOk result (IsMap self.new) }
        ensures grows { Grows self.old self.new (parts.here ∷ []) }
    {
        self.push(MapNode::Split(parts))
    }

    // The map with this node.
    fn push(&mut self, node: MapNode) -> Result<LocalMap, AllocError>
        requires there { All (λ at. IsTrue (has_node (arenas_of self.old) at)) (types_in node) }
        requires parts { All (λ part. part < length self.old.nodes.items) (places_in node) }
        ensures entries { IfOk result (λ map. (local : ℕ) → entry_of self.new map local ≡ entries_of_node self.old node local) }
        ensures map { IfOk result (IsMap self.new) }
        ensures grows { Grows self.old self.new (types_in node) }
    {
        let at = self.nodes.len();
        self.nodes.push(node)?;
        Ok(LocalMap { at })
    }
}
