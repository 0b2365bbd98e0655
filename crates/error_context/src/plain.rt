//! Types that name nothing, by their nodes.
ghost use Rattle.std.specs.Prelude.{◌≡◌, IsTrue};
ghost use Rattle.type_arena.specs.Arena.{store_of};
ghost use Rattle.type_arena.specs.Meaning.{term_of};
ghost use Rattle.type_arena.specs.Store.{has as has_node};
ghost use Rattle.type_normal.specs.Nodes.{is_all_tables};
ghost use Rattle.error_context.specs.Plain.{is_plain as is_plain_term, is_plain_node, are_flat, names_none};

use type_arena::{Among, Arena, Node, Nodes, Row, TypeRef};

/// Whether a type names no field, no string and no function: of tables it has none or all.
pub(crate) fn is_plain(arena: &Arena<'_>, a: TypeRef) -> bool
    requires { IsTrue (has_node (store_of arena.now) a) }
    ensures { result ≡ is_plain_term (term_of (store_of arena.now) a) }
{
    names_nothing(arena.node(a))
}

// Whether a node names nothing.
fn names_nothing(node: &Node) -> bool
    ensures { result ≡ is_plain_node node.now }
{
    is_flat(node.rows.as_slice()) & (is_nameless(&node.strings) & is_nameless(&node.functions))
}

// Whether rows are none, or that of all tables alone.
fn is_flat(rows: &[Row]) -> bool
    ensures { result ≡ are_flat rows.now }
{
    match rows {
        [] => true,
        [row] => is_all(row),
        [_, _, ..] => false,
    }
}

// Whether a row is that of all tables.
fn is_all(row: &Row) -> bool
    ensures { result ≡ is_all_tables row.now }
{
    !row.frozen & row.fields.as_slice().is_empty()
}

// Whether a set is named by no member.
fn is_nameless<T>(set: &Among<T>) -> bool
    ensures { result ≡ names_none set.now }
{
    match set {
        Among::Only(members) => members.as_slice().is_empty(),
        Among::AllBut(members) => members.as_slice().is_empty(),
    }
}
