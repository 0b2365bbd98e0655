ghost use Rattle.std.specs.Prelude.{◌≡◌, ℕ, ◌∷◌, [], All, IsTrue, IfOk};
ghost use Rattle.type_arena.specs.Store.{has as has_node};
ghost use Rattle.local_types.specs.Entries.{arenas_of, type_of, entry_of, IsMap};
ghost use Rattle.local_types.specs.Growing.{Grows, IsMadeOf};
ghost use Rattle.local_types.specs.Locals.{said_meant, refs_said, refined_by, refining, some_empty};

use crate::node::LocalMap;
use crate::types::LocalTypes;
use luau_tree::LocalId;
use std::alloc::{AllocError, Global};
use type_arena::TypeRef;
use type_fields::is_unknown;
use type_normal::is_empty;

/// A map that was refined by what is said of some locals, and whether one of these has no value then.
#[derive(Clone, Copy, Debug)]
pub struct Refined {
    pub map: LocalMap,
    pub empty: bool,
}

impl<'a> LocalTypes<'a> {
    /// The map whose entries are refined by what is said of their locals. Of a local that is listed more than once, its first
    /// type is said. The map that was there stays as it was.
    pub fn refined(
        &mut self,
        alloc: Global,
        map: LocalMap,
        said: &[(LocalId, TypeRef)],
    ) -> Result<Refined, AllocError>
        requires map { IsMap self.old map }
        requires there { All (λ at. IsTrue (has_node (arenas_of self.old) at)) (refs_said said.now) }
        ensures entries { IfOk result (λ new. (local : ℕ) → entry_of self.new new.map local ≡ refining (said_meant (type_of self.old) said.now) (entry_of self.old map) local) }
        ensures empty { IfOk result (λ new. new.empty ≡ some_empty (said_meant (type_of self.old) said.now) (entry_of self.old map)) }
        ensures map { IfOk result (λ new. IsMap self.new new.map) }
        ensures grows { Grows self.old self.new (refs_said said.now) }
    {
        let mut now = map;
        let mut empty = false;
        for i in (0..said.len()).rev() {
            let (local, guard) = said[i];
            let old = self.get(map, local.0);
            let at = self.refined_type(alloc, old, guard)?;
            empty = is_empty(&self.arena, at) | empty;
            let next = self.put(now, local.0, at)?;
            now = next;
        }
        Ok(Refined { map: now, empty })
    }

    // A type by what is said of its value: by unknown it stays as it is.
    fn refined_type(
        &mut self,
        alloc: Global,
        old: TypeRef,
        guard: TypeRef,
    ) -> Result<TypeRef, AllocError>
        requires old { IsTrue (has_node (arenas_of self.old) old) }
        requires guard { IsTrue (has_node (arenas_of self.old) guard) }
        ensures term { IfOk result (λ at. type_of self.new at ≡ refined_by (type_of self.old guard) (type_of self.old old)) }
        ensures there { IfOk result (λ at. IsTrue (has_node (arenas_of self.new) at)) }
        ensures made { IfOk result (IsMadeOf self.old (old ∷ guard ∷ [])) }
        ensures grows { Grows self.old self.new (old ∷ guard ∷ []) }
    {
        if is_unknown(&self.arena, guard) {
            return Ok(old);
        }
        let both = self.meet(alloc, old, guard)?;
        let at = self.cut_up(alloc, both)?;
        Ok(at)
    }
}
