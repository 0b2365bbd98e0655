ghost use Rattle.std.specs.Prelude.{◌≡◌};
ghost use Rattle.type_arena.specs.Frozen.{holdings_of};
ghost use Rattle.type_arena.specs.Shelf.{shelf_store};
ghost use Rattle.type_arena.specs.Store.{IsPlaced, IsClosed};

use crate::frozen::Frozen;
use crate::shelves::Shelf;

/// A shelf of frozen arenas. The arena at each position has that position as its home, and no reference in a node leads
/// to one that isn't there.
#[tactic(auto, using(crate::proofs::ShelfLemmas::sound_where_placed))]
pub fn shelf(frozen: &[Frozen]) -> Shelf<'_>
    requires placed { IsPlaced (holdings_of frozen.now) }
    requires closed { IsClosed (holdings_of frozen.now) }
    ensures { shelf_store result ≡ holdings_of frozen.now }
{
    Shelf { frozen }
}
