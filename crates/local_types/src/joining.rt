ghost use Rattle.std.specs.Prelude.{◌≡◌, ℕ, [], All, IfOk, reverse};
ghost use Rattle.local_types.specs.Entries.{entry_of, IsMap};
ghost use Rattle.local_types.specs.Ends.{all_dead, joining};
ghost use Rattle.local_types.specs.Growing.{Grows};

use crate::changes::{Change, How};
use crate::node::Point;
use crate::types::LocalTypes;
use std::alloc::{AllocError, Global};
use type_fields::Plain;

impl<'a> LocalTypes<'a> {
    /// What is known after branches, whose ends stand the last first: the union of the live ones, cut up. Without one no run
    /// goes on. The maps that were there stay as they were.
    pub fn joined(&mut self, alloc: Global, ends: &[Point]) -> Result<Point, AllocError>
        requires { All (λ end. IsMap self.old end.map) ends.now }
        ensures entries { IfOk result (λ new. (local : ℕ) → entry_of self.new new.map local ≡ joining self.old (reverse ends.now) local) }
        ensures dead { IfOk result (λ new. new.dead ≡ all_dead (reverse ends.now)) }
        ensures map { IfOk result (λ new. IsMap self.new new.map) }
        ensures grows { Grows self.old self.new [] }
    {
        let never = self.plain(alloc, Plain::Never)?;
        let mut map = self.everywhere(never)?;
        let mut dead = true;
        for end in ends {
            if end.dead {
                continue;
            }
            let both = self.combined(alloc, How::Union, end.map, map)?;
            map = both;
            dead = false;
        }
        let cut = self.changed(alloc, map, &Change::CutUp)?;
        Ok(Point { map: cut, dead })
    }
}
