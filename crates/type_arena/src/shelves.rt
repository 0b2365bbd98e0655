ghost use Rattle.std.specs.Prelude.{◌≡◌, Some, IsTrue};
ghost use Rattle.std.proofs.Props.{props};
ghost use Rattle.type_arena.specs.Frozen.{holdings_of};
ghost use Rattle.type_arena.specs.Store.{IsPlaced, IsSound};

use crate::frozen::Frozen;
use crate::node::{Node, TypeRef};
use crate::nodes::Nodes;

/// Frozen arenas in a row, each at the position that is its home. A shelf borrows them and copies nothing.
#[derive(Clone, Copy)]
pub struct Shelf<'a> {
    pub(crate) frozen: &'a [Frozen],
    ghost placed: { IsPlaced (holdings_of frozen.now) } by { Prim.hlevel props },
    ghost sound: { IsSound (holdings_of frozen.now) } by { Prim.hlevel props },
}

impl<'a> Nodes for Shelf<'a> {
    ghost use Rattle.type_arena.specs.Shelf.{shelf_store};

    ghost arenas = { shelf_store };

    fn node(&self, at: TypeRef) -> &Node {
        self.frozen[at.home as usize].at(at.id)
    }

    fn has(&self, at: TypeRef) -> bool {
        match self.frozen.get(at.home as usize) {
            Some(arena) => at.id < arena.len(),
            None => false,
        }
    }

    ghost sound = { λ shelf. shelf.sound };
}
