ghost use Rattle.std.specs.Prelude.{◌≡◌, ◌++◌, not, IsTrue, IfOk, length};
ghost use Rattle.std.specs.Bool.{beq};
ghost use Rattle.std.specs.List.{list_all};
ghost use Rattle.std.specs.Option.{option_map};
ghost use Rattle.type_arena.specs.Meaning.{term_of};
ghost use Rattle.type_arena.specs.Store.{has as has_node};
ghost use Rattle.type_arena.specs.Term.{free_of, strings_of, functions_of, functions_in, function_of};
ghost use Rattle.type_normal.specs.Free.{name_cmp, function_cmp};
ghost use Rattle.type_normal.specs.Members.{has_member};
ghost use Rattle.type_normal.specs.Nodes.{is_nil, is_all_tables};
ghost use Rattle.subtype_check.specs.Apart.{apart as apart_terms, first_apart, first_kind, kind_apart, first_that, member_apart, fresh_text, fresh_function, longest, paths_of, path_of, name_of, fn_cmp};

use crate::free::has;
use std::alloc::{AllocError, Global};
use type_arena::{Among, FnName, Label, Node, Nodes, Row, TypeRef};

/// Values that tell one type from another.
#[derive(Debug, Drop, PartialEq, Eq)]
pub enum Sample {
    /// Nil.
    Nil,
    /// True.
    True,
    /// False.
    False,
    /// Every number.
    Number,
    /// This string.
    Text(Label),
    /// This function.
    Function(FnName),
    /// Every value of no other kind.
    Other,
    /// Every table.
    Table,
}

/// What tells the one type from the other: a value that is in the one and not in the other, in every heap.
///
/// None where the one is below the other, and where one of them has a row with fields or for frozen tables alone. Else
/// the first kind of values of which something is in the one type alone, in the order of the samples. Of strings and of
/// functions it is the first one if only finitely many are in the one type alone, and else a text of letters `x` as short
/// as can be, or the builtin whose name is such a text of one letter or more.
pub fn apart<N: Nodes>(
    alloc: Global,
    nodes: &N,
    a: TypeRef,
    b: TypeRef,
) -> Result<Option<Sample>, AllocError>
    requires first { IsTrue (has_node (N.arenas nodes.now) a) }
    requires second { IsTrue (has_node (N.arenas nodes.now) b) }
    ensures { IfOk result (λ sample. sample ≡ apart_terms (term_of (N.arenas nodes.now) a) (term_of (N.arenas nodes.now) b)) }
{
    let one = nodes.node(a);
    let other = nodes.node(b);
    if has_plain_rows(one) & has_plain_rows(other) {
        nodes_apart(alloc, one, other)
    } else {
        Ok(None)
    }
}

// Whether no row of a node has a field or is for frozen tables alone.
fn has_plain_rows(node: &Node) -> bool
    ensures { result ≡ list_all is_all_tables node.now.rows }
{
    node.rows.as_slice().iter().all(is_plain)
}

// Whether a row has no field and isn't for frozen tables alone.
fn is_plain(row: &Row) -> bool
    ensures { result ≡ is_all_tables row.now }
{
    !row.frozen & row.fields.as_slice().is_empty()
}

// What is in the one of two types and not in the other, where their rows are plain.
fn nodes_apart(alloc: Global, one: &Node, other: &Node) -> Result<Option<Sample>, AllocError>
    ensures { IfOk result (λ sample. sample ≡ first_apart (free_of one.now) (not (is_nil one.now.rows)) (free_of other.now) (not (is_nil other.now.rows))) }
{
    let kind = kinds_apart(one, other);
    if kind.is_some() {
        return Ok(kind);
    }
    if let Some(text) = text_apart(alloc, &one.strings, &other.strings)? {
        return Ok(Some(Sample::Text(text)));
    }
    if let Some(name) = function_apart(alloc, &one.functions, &other.functions)? {
        return Ok(Some(Sample::Function(name)));
    }
    if one.other & !other.other {
        return Ok(Some(Sample::Other));
    }
    let tables = !one.rows.as_slice().is_empty();
    let others = !other.rows.as_slice().is_empty();
    Ok(only_in(Sample::Table, tables, others))
}

// The first of nil, true, false and the numbers that is in the one of two types and not in the other.
fn kinds_apart(one: &Node, other: &Node) -> Option<Sample>
    ensures { result ≡ first_kind (free_of one.now) (free_of other.now) }
{
    if one.nil & !other.nil {
        return Some(Sample::Nil);
    }
    if one.truth & !other.truth {
        return Some(Sample::True);
    }
    if one.falsity & !other.falsity {
        return Some(Sample::False);
    }
    only_in(Sample::Number, one.number, other.number)
}

// A kind, if it is in the one of two types and not in the other.
fn only_in(kind: Sample, one: bool, other: bool) -> Option<Sample>
    ensures { result ≡ kind_apart kind one other }
{
    if one & !other { Some(kind) } else { None }
}

// A string that is in the one of two sets and not in the other.
fn text_apart(
    alloc: Global,
    a: &Among<Label>,
    b: &Among<Label>,
) -> Result<Option<Label>, AllocError>
    ensures { IfOk result (λ text. text ≡ member_apart name_cmp fresh_text (strings_of a.now) (strings_of b.now)) }
{
    match (a, b) {
        (Among::Only(xs), Among::Only(ys)) => first_text(xs.as_slice(), ys.as_slice(), false),
        (Among::Only(xs), Among::AllBut(ys)) => first_text(xs.as_slice(), ys.as_slice(), true),
        (Among::AllBut(xs), Among::AllBut(ys)) => first_text(ys.as_slice(), xs.as_slice(), false),
        (Among::AllBut(xs), Among::Only(ys)) => {
            let text = new_text(alloc, xs.as_slice(), ys.as_slice())?;
            Ok(Some(text))
        }
    }
}

// The first string of a list that is inside another one, or that isn't.
fn first_text(xs: &[Label], ys: &[Label], inside: bool) -> Result<Option<Label>, AllocError>
    ensures { IfOk result (λ text. text ≡ first_that (λ x. beq (has_member name_cmp x ys.now) inside) xs.now) }
{
    for x in xs {
        if has(ys, x) == inside {
            let text = x.clone()?;
            return Ok(Some(text));
        }
    }
    Ok(None)
}

// The shortest text of letters `x` that is in neither of two lists.
fn new_text(alloc: Global, xs: &[Label], ys: &[Label]) -> Result<Label, AllocError>
    ensures { IfOk result (λ text. text ≡ fresh_text (xs.now ++ ys.now)) }
{
    let most = longest_text(xs).max(longest_text(ys));
    let mut letters = Vec::new(alloc);
    while letters.len() <= most {
        let text = Label::of(letters);
        if !has(xs, &text) & !has(ys, &text) {
            return Ok(text);
        }
        letters = text.into_vec();
        letters.push(b'x')?;
    }
    Ok(Label::of(letters))
}

// How long the longest of some texts is.
fn longest_text(texts: &[Label]) -> usize
    ensures { result ≡ longest texts.now }
{
    let mut most = 0;
    for text in texts {
        most = text.as_slice().len().max(most);
    }
    most
}

// A function that is in the one of two sets and not in the other.
fn function_apart(
    alloc: Global,
    a: &Among<FnName>,
    b: &Among<FnName>,
) -> Result<Option<FnName>, AllocError>
    ensures { IfOk result (λ name. name ≡ option_map name_of (member_apart function_cmp fresh_function (functions_of a.now) (functions_of b.now))) }
{
    match (a, b) {
        (Among::Only(xs), Among::Only(ys)) => first_name(xs.as_slice(), ys.as_slice(), false),
        (Among::Only(xs), Among::AllBut(ys)) => first_name(xs.as_slice(), ys.as_slice(), true),
        (Among::AllBut(xs), Among::AllBut(ys)) => first_name(ys.as_slice(), xs.as_slice(), false),
        (Among::AllBut(xs), Among::Only(ys)) => {
            let name = new_name(alloc, xs.as_slice(), ys.as_slice())?;
            Ok(Some(name))
        }
    }
}

// The first function of a list that is inside another one, or that isn't.
fn first_name(xs: &[FnName], ys: &[FnName], inside: bool) -> Result<Option<FnName>, AllocError>
    ensures { IfOk result (λ name. name ≡ first_that (λ x. beq (has_member fn_cmp x ys.now) inside) xs.now) }
{
    for x in xs {
        if has(ys, x) == inside {
            let name = copy_name(x)?;
            return Ok(Some(name));
        }
    }
    Ok(None)
}

// A copy of the name of a function.
fn copy_name(name: &FnName) -> Result<FnName, AllocError>
    ensures { IfOk result (λ copy. copy ≡ name.now) }
{
    match name {
        FnName::Builtin(path) => {
            let path = path.clone()?;
            Ok(FnName::Builtin(path))
        }
        FnName::Literal { home, number } => Ok(FnName::Literal {
            home: *home,
            number: *number,
        }),
    }
}

// The builtin with the shortest name of letters `x` that is in neither of two lists.
fn new_name(alloc: Global, xs: &[FnName], ys: &[FnName]) -> Result<FnName, AllocError>
    ensures { IfOk result (λ name. name ≡ name_of (fresh_function (functions_in xs.now ++ functions_in ys.now))) }
{
    let most = longest_path(xs).max(longest_path(ys));
    let mut letters = Vec::new(alloc);
    letters.push(b'x')?;
    while letters.len() <= most {
        let path = Label::of(letters);
        let copy = path.clone()?;
        let name = FnName::Builtin(copy);
        if !has(xs, &name) & !has(ys, &name) {
            return Ok(name);
        }
        letters = path.into_vec();
        letters.push(b'x')?;
    }
    Ok(FnName::Builtin(Label::of(letters)))
}

// How long the longest path of the builtins among some functions is.
fn longest_path(names: &[FnName]) -> usize
    ensures { result ≡ longest (paths_of (functions_in names.now)) }
{
    let mut most = 0;
    for name in names {
        most = path_len(name).max(most);
    }
    most
}

// How long the path of a builtin is, and 0 of a function literal.
fn path_len(name: &FnName) -> usize
    ensures { result ≡ length (path_of (function_of name.now)) }
{
    match name {
        FnName::Builtin(path) => path.as_slice().len(),
        FnName::Literal { .. } => 0,
    }
}
