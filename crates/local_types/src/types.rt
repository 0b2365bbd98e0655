ghost use Rattle.std.proofs.Props.{props};
ghost use Rattle.type_arena.specs.Arena.{store_of};
ghost use Rattle.local_types.specs.Maps.{TypesAreThere, PartsComeBefore};

use crate::node::MapNode;
use type_arena::Arena;

/// Maps from the numbers of locals to types of an arena, which stands in it. A map is never changed: each call makes new
/// ones, and those that were made before keep what they have.
#[derive(Drop)]
pub struct LocalTypes<'a> {
    pub arena: Arena<'a>,
    pub(crate) nodes: Vec<MapNode>,
    ghost there: { TypesAreThere (store_of arena) nodes.items } by { Prim.hlevel props },
    ghost before: { PartsComeBefore nodes.items } by { Prim.hlevel props },
}
