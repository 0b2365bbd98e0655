ghost use Rattle.std.specs.Prelude.{◌≡◌, ℕ, [], IfOk};
ghost use Rattle.local_types.specs.Changes.{changed_by};
ghost use Rattle.local_types.specs.Entries.{entry_of, IsMap};
ghost use Rattle.local_types.specs.Growing.{Grows};

use crate::changes::Change;
use crate::node::{LocalMap, MapNode, Parts};
use crate::types::LocalTypes;
use std::alloc::{AllocError, Global};

impl<'a> LocalTypes<'a> {
    /// The map whose entries are those of a map, changed. The map that was there stays as it was.
    pub fn changed(
        &mut self,
        alloc: Global,
        map: LocalMap,
        change: &Change,
    ) -> Result<LocalMap, AllocError>
        requires { IsMap self.old map }
        ensures entries { IfOk result (λ new. (local : ℕ) → entry_of self.new new local ≡ changed_by change.now (entry_of self.old map local)) }
        ensures map { IfOk result (IsMap self.new) }
        ensures grows { Grows self.old self.new [] }
    {
        match self.node(map) {
            MapNode::All(at) => {
                let at = self.changed_type(alloc, at, change)?;
                let new = self.everywhere(at)?;
                Ok(new)
            }
            MapNode::Split(parts) => {
                let here = self.changed_type(alloc, parts.here, change)?;
                let odd = self.changed(alloc, parts.odd, change)?;
                let even = self.changed(alloc, parts.even, change)?;
                let new = self.split(Parts { here, odd, even })?;
                Ok(new)
            }
        }
    }
}
