ghost use Rattle.std.specs.Prelude.{◌≡◌, ℕ, [], IfOk};
ghost use Rattle.local_types.specs.Entries.{entry_of, IsMap};
ghost use Rattle.local_types.specs.Growing.{Grows};
ghost use Rattle.local_types.specs.Locals.{numbers, forgetting};

use crate::node::LocalMap;
use crate::types::LocalTypes;
use luau_tree::LocalId;
use std::alloc::{AllocError, Global};
use type_fields::Plain;

impl<'a> LocalTypes<'a> {
    /// The map where nothing is known of some locals. The map that was there stays as it was.
    pub fn forgotten(
        &mut self,
        alloc: Global,
        map: LocalMap,
        locals: &[LocalId],
    ) -> Result<LocalMap, AllocError>
        requires { IsMap self.old map }
        ensures entries { IfOk result (λ new. (local : ℕ) → entry_of self.new new local ≡ forgetting (numbers locals.now) (entry_of self.old map) local) }
        ensures map { IfOk result (IsMap self.new) }
        ensures grows { Grows self.old self.new [] }
    {
        let unknown = self.plain(alloc, Plain::Unknown)?;
        let mut now = map;
        for local in locals {
            let next = self.put(now, local.0, unknown)?;
            now = next;
        }
        Ok(now)
    }
}
