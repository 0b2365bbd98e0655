//! Subtyping and samples over an arena, as tables of cases.
ghost use Rattle.std.specs.Prelude.{◌≡◌, [], All, IfOk};
ghost use Rattle.type_arena.specs.Store.{refs_of, row_types};

use super::*;
use std::alloc::{AllocError, Global};
use std::test::Fail;
use type_arena::{Among, Arena, FnName, Label, List, Node, Nodes, Row, TypeRef, over, shelf};

// A text of one letter.
fn text(alloc: Global, letter: u8) -> Result<Label, AllocError> {
    Ok(Label::of(vec![in alloc; letter]?))
}

// These strings, of one letter each, or all others.
fn strings(alloc: Global, all_but: bool, letters: &[u8]) -> Result<Among<Label>, AllocError> {
    let mut texts = Vec::new(alloc);
    for letter in letters {
        texts.push(text(alloc, *letter)?)?;
    }
    let texts = List::of(texts);
    Ok(if all_but {
        Among::AllBut(texts)
    } else {
        Among::Only(texts)
    })
}

// The builtins with these names, of one letter each, or all other functions.
fn functions(alloc: Global, all_but: bool, letters: &[u8]) -> Result<Among<FnName>, AllocError> {
    let mut names = Vec::new(alloc);
    for letter in letters {
        names.push(FnName::Builtin(text(alloc, *letter)?))?;
    }
    let names = List::of(names);
    Ok(if all_but {
        Among::AllBut(names)
    } else {
        Among::Only(names)
    })
}

// A type without rows: nothing, or all values but tables.
fn flat(alloc: Global, all: bool) -> Result<Node, AllocError>
    ensures { IfOk result (λ node. refs_of node ≡ []) }
{
    Ok(Node {
        nil: all,
        truth: all,
        falsity: all,
        number: all,
        other: all,
        strings: strings(alloc, all, &[])?,
        functions: functions(alloc, all, &[])?,
        rows: List::of(Vec::new(alloc)),
    })
}

// The type of nil.
fn nil(alloc: Global, arena: &mut Arena<'_>) -> Result<TypeRef, AllocError> {
    let mut node = flat(alloc, false)?;
    node.nil = true;
    arena.intern(node)
}

// The type of these strings, or of all others.
fn texts(
    alloc: Global,
    arena: &mut Arena<'_>,
    all_but: bool,
    letters: &[u8],
) -> Result<TypeRef, AllocError> {
    let mut node = flat(alloc, false)?;
    node.strings = strings(alloc, all_but, letters)?;
    arena.intern(node)
}

// The type of these builtins, or of all other functions.
fn builtins(
    alloc: Global,
    arena: &mut Arena<'_>,
    all_but: bool,
    letters: &[u8],
) -> Result<TypeRef, AllocError> {
    let mut node = flat(alloc, false)?;
    node.functions = functions(alloc, all_but, letters)?;
    arena.intern(node)
}

// The rows of one row, whose fields have names of one letter, in order, and all have one type.
fn one_row(alloc: Global, frozen: bool, width: u8, at: TypeRef) -> Result<List<Row>, AllocError>
    ensures { IfOk result (λ rows. All (λ child. child ≡ at) (row_types rows)) }
{
    let mut fields = Vec::new(alloc);
    for letter in 0..width {
        fields.push((text(alloc, letter)?, at))?;
    }
    let mut rows = Vec::new(alloc);
    rows.push(Row {
        frozen,
        fields: List::of(fields),
    })?;
    Ok(List::of(rows))
}

// The type of all values, or of all but numbers.
fn all_values(alloc: Global, arena: &mut Arena<'_>, number: bool) -> Result<TypeRef, AllocError> {
    let none = nil(alloc, arena)?;
    if !arena.has(none) {
        return Ok(none);
    }
    let mut node = flat(alloc, true)?;
    node.number = number;
    node.rows = one_row(alloc, false, 0, none)?;
    arena.intern(node)
}

// The tables with so many fields, each of one type.
fn tables(
    alloc: Global,
    arena: &mut Arena<'_>,
    frozen: bool,
    width: u8,
    at: TypeRef,
) -> Result<TypeRef, AllocError> {
    if !arena.has(at) {
        return Ok(at);
    }
    let mut node = flat(alloc, false)?;
    node.rows = one_row(alloc, frozen, width, at)?;
    arena.intern(node)
}

// Whether the one type is below the other, where both are there.
fn is_below(arena: &Arena<'_>, a: TypeRef, b: TypeRef) -> Option<bool> {
    if !arena.has(a) | !arena.has(b) {
        return None;
    }
    Some(below(arena, a, b))
}

// What tells the one type from the other, where both are there.
fn told(
    alloc: Global,
    arena: &Arena<'_>,
    a: TypeRef,
    b: TypeRef,
) -> Result<Option<Sample>, AllocError> {
    if !arena.has(a) | !arena.has(b) {
        return Ok(None);
    }
    apart(alloc, arena, a, b)
}

// The types without rows that the tables of cases speak of, by their numbers from 0.
fn push_flat(
    alloc: Global,
    arena: &mut Arena<'_>,
    types: &mut Vec<TypeRef>,
) -> Result<(), AllocError> {
    types.push(nil(alloc, arena)?)?;
    types.push(texts(alloc, arena, true, &[])?)?;
    types.push(texts(alloc, arena, false, b"a")?)?;
    types.push(texts(alloc, arena, true, b"b")?)?;
    types.push(builtins(alloc, arena, false, b"f")?)?;
    types.push(builtins(alloc, arena, true, b"x")?)?;
    Ok(())
}

// The types with rows, from 6 on: unknown, all but the numbers, and tables with fields of type string, of the numbers'
// rest, frozen ones, and ones with two fields.
fn push_tables(
    alloc: Global,
    arena: &mut Arena<'_>,
    types: &mut Vec<TypeRef>,
) -> Result<(), AllocError> {
    let string = texts(alloc, arena, true, &[])?;
    let rest = all_values(alloc, arena, false)?;
    types.push(all_values(alloc, arena, true)?)?;
    types.push(rest)?;
    types.push(tables(alloc, arena, false, 1, string)?)?;
    types.push(tables(alloc, arena, false, 1, rest)?)?;
    types.push(tables(alloc, arena, true, 1, string)?)?;
    types.push(tables(alloc, arena, false, 2, string)?)?;
    Ok(())
}

// All of these types.
fn types_of(alloc: Global, arena: &mut Arena<'_>) -> Result<Vec<TypeRef>, AllocError> {
    let mut types = Vec::new(alloc);
    push_flat(alloc, arena, &mut types)?;
    push_tables(alloc, arena, &mut types)?;
    Ok(types)
}

// Whether the one of two types by their numbers is below the other.
fn answer(arena: &Arena<'_>, types: &[TypeRef], lower: usize, upper: usize) -> Option<bool> {
    if (types.len() <= lower) | (types.len() <= upper) {
        return None;
    }
    is_below(arena, types[lower], types[upper])
}

// What tells the one of two types by their numbers from the other.
fn told_of(
    alloc: Global,
    arena: &Arena<'_>,
    types: &[TypeRef],
    one: usize,
    other: usize,
) -> Result<Option<Sample>, AllocError> {
    if (types.len() <= one) | (types.len() <= other) {
        return Ok(None);
    }
    told(alloc, arena, types[one], types[other])
}

const CASES: [(usize, usize, bool); 17] = [
    (2, 1, true),
    (1, 2, false),
    (2, 3, true),
    (3, 2, false),
    (1, 3, false),
    (8, 9, true),
    (9, 8, false),
    (10, 8, true),
    (8, 10, false),
    (11, 8, true),
    (8, 11, false),
    (8, 6, true),
    (6, 8, false),
    (4, 5, true),
    (4, 6, true),
    (0, 1, false),
    (0, 0, true),
];

#[test]
fn types_below_others(rt: HostRuntime) -> Result<(), Fail> {
    let alloc = rt.alloc();
    let mut arena = over(alloc, shelf(&[]), 0)?;
    let types = types_of(alloc, &mut arena)?;
    for case in &CASES {
        let found = answer(&arena, types.as_slice(), case.0, case.1);
        assert_eq!(rt; found, Some(case.2));
    }
    Ok(())
}

#[test]
fn kinds_and_strings_that_tell_types_apart(rt: HostRuntime) -> Result<(), Fail> {
    let alloc = rt.alloc();
    let mut arena = over(alloc, shelf(&[]), 0)?;
    let types = types_of(alloc, &mut arena)?;
    let list = types.as_slice();
    assert!(rt; told_of(alloc, &arena, list, 6, 0)? == Some(Sample::True));
    assert!(rt; told_of(alloc, &arena, list, 8, 0)?.is_none());
    let empty = Label::of(Vec::new(alloc));
    assert!(rt; told_of(alloc, &arena, list, 1, 2)? == Some(Sample::Text(empty)));
    let b = text(alloc, b'b')?;
    assert!(rt; told_of(alloc, &arena, list, 1, 3)? == Some(Sample::Text(b)));
    Ok(())
}

#[test]
fn functions_that_tell_types_apart(rt: HostRuntime) -> Result<(), Fail> {
    let alloc = rt.alloc();
    let mut arena = over(alloc, shelf(&[]), 0)?;
    let types = types_of(alloc, &mut arena)?;
    let list = types.as_slice();
    let xx = FnName::Builtin(Label::of(vec![in alloc; b'x', b'x']?));
    assert!(rt; told_of(alloc, &arena, list, 5, 4)? == Some(Sample::Function(xx)));
    let f = FnName::Builtin(text(alloc, b'f')?);
    assert!(rt; told_of(alloc, &arena, list, 4, 0)? == Some(Sample::Function(f)));
    Ok(())
}

#[test]
fn levels_that_share_one_type_are_compared_at_once(rt: HostRuntime) -> Result<(), Fail> {
    let alloc = rt.alloc();
    let mut arena = over(alloc, shelf(&[]), 0)?;
    let mut lower = texts(alloc, &mut arena, false, b"a")?;
    let mut upper = texts(alloc, &mut arena, true, &[])?;
    for _ in 0..8 {
        lower = tables(alloc, &mut arena, false, 60, lower)?;
        upper = tables(alloc, &mut arena, false, 60, upper)?;
    }
    assert_eq!(rt; is_below(&arena, lower, upper), Some(true));
    Ok(())
}
