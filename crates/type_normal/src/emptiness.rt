ghost use Rattle.std.specs.Prelude.{◌≡◌, IsTrue};
ghost use Rattle.type_arena.specs.Meaning.{term_of};
ghost use Rattle.type_arena.specs.Store.{has as has_node};
ghost use Rattle.type_normal.specs.Rows.{is_empty as is_empty_term};
ghost use Rattle.type_normal.specs.Nodes.{is_none, has_no_part};

use type_arena::{Among, Node, Nodes, TypeRef};

/// Whether a type is empty by its form: it has no part and no row. Takes no memory.
pub fn is_empty<N: Nodes>(nodes: &N, a: TypeRef) -> bool
    requires { IsTrue (has_node (N.arenas nodes.now) a) }
    ensures { result ≡ is_empty_term (term_of (N.arenas nodes.now) a) }
{
    is_bare(nodes.node(a))
}

// Whether a node has no part and no row.
fn is_bare(node: &Node) -> bool
    ensures { result ≡ has_no_part node.now }
{
    let some = node.nil | node.truth | node.falsity | node.number | node.other;
    !some & has_none(&node.strings) & has_none(&node.functions) & node.rows.as_slice().is_empty()
}

// Whether a set has no member, by its form.
fn has_none<T>(set: &Among<T>) -> bool
    ensures { result ≡ is_none set.now }
{
    match set {
        Among::Only(members) => members.as_slice().is_empty(),
        Among::AllBut(_) => false,
    }
}
