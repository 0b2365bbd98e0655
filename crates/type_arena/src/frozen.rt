ghost use Rattle.std.proofs.Props.{props};
ghost use Rattle.type_arena.specs.Store.{IsOrdered};

use crate::node::Node;
use crate::nodes::nth_node;
use indexmap::IndexSet;
use std::alloc::{AllocError, Global};

/// An arena that takes no more nodes.
#[derive(Drop)]
pub struct Frozen {
    pub(crate) home: u32,
    pub(crate) nodes: IndexSet<Node>,
    ghost ordered: { IsOrdered home nodes.keys } by { Prim.hlevel props },
}

impl Frozen {
    ghost use Rattle.std.specs.Prelude.{◌≡◌, ◌<◌, IfOk, length, slice_get};
    ghost use Rattle.type_arena.specs.Frozen.{holding_of};

    /// How many nodes it has.
    pub(crate) fn len(&self) -> u64
        ensures { result ≡ length (holding_of self.now).nodes }
    {
        self.nodes.len() as u64
    }

    /// The node with this id.
    pub(crate) fn at(&self, id: u64) -> &Node
        requires { id < length (holding_of self.now).nodes }
        ensures { slice_get (holding_of self.now).nodes id ≡ Some result.now }
    {
        nth_node(&self.nodes, id)
    }

    /// An arena of the same home, with the same nodes at the same references.
    #[tactic(auto, using(crate::proofs::CloneLemmas::same_nodes))]
    pub fn copy(&self, _alloc: Global) -> Result<Frozen, AllocError>
        ensures { IfOk result (λ copy. holding_of copy ≡ holding_of self.now) }
    {
        let nodes = self.nodes.clone()?;
        Ok(Frozen {
            home: self.home,
            nodes,
        })
    }
}
