ghost use Rattle.std.specs.Prelude.{◌≡◌, IsTrue, option_map, option_copied};
ghost use Rattle.type_arena.specs.Meaning.{term_of};
ghost use Rattle.type_arena.specs.Store.{has as has_node};
ghost use Rattle.type_arena.specs.Term.{function_of};
ghost use Rattle.type_normal.specs.Kinds.{has_nil as has_nil_term, exactly_one_function as one_function_term};
ghost use Rattle.type_normal.specs.Nodes.{is_none, is_all_tables};
ghost use Rattle.type_normal.specs.Rows.{is_unknown as is_unknown_term};
ghost use Rattle.type_ops.specs.Normalized.{is_all, only_all_tables, has_every_part};
ghost use Rattle.type_fields.specs.Readings.{has_strings_or_other as strings_or_other, only_item as only_one, only_member as only_of, names_functions_alone, function_in};

use type_arena::{Among, FnName, Node, Nodes, Row, TypeRef};

/// Whether nil belongs to a type. Takes no memory.
pub fn has_nil<N: Nodes>(nodes: &N, a: TypeRef) -> bool
    requires { IsTrue (has_node (N.arenas nodes.now) a) }
    ensures { result ≡ has_nil_term (term_of (N.arenas nodes.now) a) }
{
    let node = nodes.node(a);
    node.nil
}

/// Whether strings or values of no other kind belong to a type, by its form. Takes no memory.
pub fn has_strings_or_other<N: Nodes>(nodes: &N, a: TypeRef) -> bool
    requires { IsTrue (has_node (N.arenas nodes.now) a) }
    ensures { result ≡ strings_or_other (term_of (N.arenas nodes.now) a) }
{
    let node = nodes.node(a);
    !has_none(&node.strings) | node.other
}

/// The function that is the only value of a type, by its form. Takes no memory.
pub fn exactly_one_function<N: Nodes>(nodes: &N, a: TypeRef) -> Option<&FnName>
    requires { IsTrue (has_node (N.arenas nodes.now) a) }
    ensures { option_map function_of (option_copied result) ≡ one_function_term (term_of (N.arenas nodes.now) a) }
{
    only_function(nodes.node(a))
}

// The function of a node that has no other value.
fn only_function(node: &Node) -> Option<&FnName>
    ensures { option_copied result ≡ function_in node.now }
{
    let alone = has_functions_alone(node);
    if !alone {
        return None;
    }
    only_member(&node.functions)
}

// Whether a node has no part but its functions.
fn has_functions_alone(node: &Node) -> bool
    ensures { result ≡ names_functions_alone node.now }
{
    let some = node.nil | node.truth | node.falsity | node.number | node.other;
    !some & has_none(&node.strings) & node.rows.as_slice().is_empty()
}

// The only member of a set that has one.
fn only_member<T>(set: &Among<T>) -> Option<&T>
    ensures { option_copied result ≡ only_of set.now }
{
    match set {
        Among::Only(members) => only_item(members.as_slice()),
        Among::AllBut(_) => None,
    }
}

// The only item of a list that has one.
fn only_item<T>(items: &[T]) -> Option<&T>
    ensures { option_copied result ≡ only_one items.now }
{
    if items.len() == 1 {
        Some(&items[0])
    } else {
        None
    }
}

/// Whether a type is unknown by its form. Takes no memory.
pub fn is_unknown<N: Nodes>(nodes: &N, a: TypeRef) -> bool
    requires { IsTrue (has_node (N.arenas nodes.now) a) }
    ensures { result ≡ is_unknown_term (term_of (N.arenas nodes.now) a) }
{
    is_whole(nodes.node(a))
}

// Whether a node has every part, and the row of all tables alone.
fn is_whole(node: &Node) -> bool
    ensures { result ≡ has_every_part node.now }
{
    let all = node.nil & node.truth & node.falsity & node.number & node.other;
    let rows = node.rows.as_slice();
    all & has_every(&node.strings) & has_every(&node.functions) & is_any_table(rows)
}

// Whether a set has all members, by its form.
fn has_every<T>(set: &Among<T>) -> bool
    ensures { result ≡ is_all set.now }
{
    match set {
        Among::Only(_) => false,
        Among::AllBut(members) => members.as_slice().is_empty(),
    }
}

// Whether a set has no member, by its form.
fn has_none<T>(set: &Among<T>) -> bool
    ensures { result ≡ is_none set.now }
{
    match set {
        Among::Only(members) => members.as_slice().is_empty(),
        Among::AllBut(_) => false,
    }
}

// Whether rows are the row of all tables alone.
fn is_any_table(rows: &[Row]) -> bool
    ensures { result ≡ only_all_tables rows.now }
{
    let one = rows.len() == 1;
    if !one {
        return false;
    }
    is_all_table(&rows[0])
}

// Whether a row is that of all tables.
fn is_all_table(row: &Row) -> bool
    ensures { result ≡ is_all_tables row.now }
{
    !row.frozen & row.fields.as_slice().is_empty()
}
