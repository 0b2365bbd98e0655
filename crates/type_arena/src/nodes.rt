ghost use Rattle.std.specs.Prelude.{◌≡◌, ◌<◌, Some, IsTrue, length, slice_get};
ghost use Rattle.type_arena.specs.Store.{Store, node_at, has as has_node, IsSound};

use crate::node::{Node, TypeRef};
use indexmap::IndexSet;

/// Arenas whose nodes can be read by their references.
///
/// The references in a node that is there are there too and older than the node: of a lower home, or of the same home
/// with a lower id.
pub trait Nodes {
    /// The arenas, as plain data.
    ghost arenas: { Self → Store };

    /// The node of a reference.
    fn node(&self, at: TypeRef) -> &Node
        requires { IsTrue (has_node (arenas self.now) at) }
        ensures { node_at (arenas self.now) at ≡ Some result.now };

    /// Whether a reference has a node.
    fn has(&self, at: TypeRef) -> bool
        ensures { result ≡ has_node (arenas self.now) at };

    /// References are there and older than the nodes that have them, and equal nodes of one arena have one reference.
    ghost sound: { (nodes : Self) → IsSound (arenas nodes) };
}

// The node with this id among the nodes of one arena.
pub(crate) fn nth_node(nodes: &IndexSet<Node>, id: u64) -> &Node
    requires { id < length nodes.now.keys }
    ensures { slice_get nodes.now.keys id ≡ Some result.now }
{
    &nodes.as_slice()[id as usize]
}
