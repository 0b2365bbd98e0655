//! Types over one arena, from those that are there.
ghost use Rattle.std.specs.Prelude.{IsTrue, IfOk};
ghost use Rattle.type_arena.specs.Arena.{store_of};
ghost use Rattle.type_arena.specs.Store.{has as has_node};

use crate::written::{Shape, letter, written};
use std::alloc::{AllocError, Global};
use type_arena::{Arena, FnName, Nodes, TypeRef};
use type_fields::{Plain, field_is, named_type, plain_type, text_type};
use type_ops::union;
use type_terms::normal;

/// A type is in an arena.
pub(crate) fn here(arena: &Arena<'_>, at: TypeRef) -> Result<(), AllocError>
    ensures { IfOk result (λ unit. IsTrue (has_node (store_of arena.now) at)) }
{
    if arena.has(at) {
        Ok(())
    } else {
        Err(AllocError)
    }
}

/// The normal form of a type of the cases.
pub(crate) fn made(
    alloc: Global,
    arena: &mut Arena<'_>,
    shape: Shape,
) -> Result<TypeRef, AllocError>
    ensures { IfOk result (λ at. IsTrue (has_node (store_of arena.new) at)) }
{
    let term = written(alloc, shape)?;
    let at = normal(alloc, arena, &term)?;
    Ok(at)
}

/// The values of one of two types.
pub(crate) fn either(
    alloc: Global,
    arena: &mut Arena<'_>,
    a: TypeRef,
    b: TypeRef,
) -> Result<TypeRef, AllocError> {
    here(arena, a)?;
    here(arena, b)?;
    union(alloc, arena, a, b)
}

// The tables whose field `x` is in a type.
fn row(alloc: Global, arena: &mut Arena<'_>, at: TypeRef) -> Result<TypeRef, AllocError> {
    let name = letter(alloc, b'x')?;
    here(arena, at)?;
    field_is(alloc, arena, name, at)
}

// The tables whose field `x` is in one of some types, and in one more.
fn rows(
    alloc: Global,
    arena: &mut Arena<'_>,
    types: &[TypeRef],
    more: TypeRef,
) -> Result<TypeRef, AllocError> {
    let mut all = row(alloc, arena, more)?;
    for at in types {
        let one = row(alloc, arena, *at)?;
        all = either(alloc, arena, all, one)?;
    }
    Ok(all)
}

/// Two families of 16 types and one more. Each lower type is below the last upper one. The lower types but the last are
/// below the one more too, and no other is below another.
#[derive(Drop)]
pub(crate) struct Families {
    lowers: Vec<TypeRef>,
    /// The last lower type.
    pub(crate) lower: TypeRef,
    /// The upper types but the last.
    pub(crate) uppers: Vec<TypeRef>,
    /// The last upper type.
    pub(crate) upper: TypeRef,
    more: TypeRef,
}

// What the types over a level have: the upper ones but the last these values, and each its rows, where the last and the one
// more have the same.
#[derive(Clone, Copy)]
struct Over {
    values: TypeRef,
    lowers: TypeRef,
    uppers: TypeRef,
    last: TypeRef,
}

// A string or true, with these rows.
fn lower(alloc: Global, arena: &mut Arena<'_>, i: u8, over: Over) -> Result<TypeRef, AllocError> {
    let own = if i < 15 {
        let name = letter(alloc, i)?;
        text_type(alloc, arena, name)?
    } else {
        plain_type(alloc, arena, Plain::True)?
    };
    either(alloc, arena, own, over.lowers)
}

// All strings and true.
fn strings_and_true(alloc: Global, arena: &mut Arena<'_>) -> Result<TypeRef, AllocError> {
    let strings = plain_type(alloc, arena, Plain::AnyString)?;
    let truth = plain_type(alloc, arena, Plain::True)?;
    either(alloc, arena, strings, truth)
}

// One builtin, with these values and rows.
fn upper(alloc: Global, arena: &mut Arena<'_>, i: u8, over: Over) -> Result<TypeRef, AllocError> {
    let name = letter(alloc, i)?;
    let own = named_type(alloc, arena, FnName::Builtin(name))?;
    let with_rows = either(alloc, arena, own, over.uppers)?;
    either(alloc, arena, with_rows, over.values)
}

// All strings, true and nil, with these rows.
fn last(alloc: Global, arena: &mut Arena<'_>, over: Over) -> Result<TypeRef, AllocError> {
    let values = strings_and_true(alloc, arena)?;
    let nil = plain_type(alloc, arena, Plain::Nil)?;
    let own = either(alloc, arena, values, nil)?;
    either(alloc, arena, own, over.last)
}

// All strings and nil, with these rows.
fn more(alloc: Global, arena: &mut Arena<'_>, over: Over) -> Result<TypeRef, AllocError> {
    let strings = plain_type(alloc, arena, Plain::AnyString)?;
    let nil = plain_type(alloc, arena, Plain::Nil)?;
    let own = either(alloc, arena, strings, nil)?;
    either(alloc, arena, own, over.last)
}

// The types over a level.
fn families_over(alloc: Global, arena: &mut Arena<'_>, over: Over) -> Result<Families, AllocError> {
    let mut lowers = Vec::new(alloc);
    let mut uppers = Vec::new(alloc);
    let first = lower(alloc, arena, 15, over)?;
    let second = last(alloc, arena, over)?;
    let third = more(alloc, arena, over)?;
    for i in 0..15u8 {
        let one = lower(alloc, arena, i, over)?;
        lowers.push(one)?;
        let other = upper(alloc, arena, i, over)?;
        uppers.push(other)?;
    }
    Ok(Families {
        lowers,
        lower: first,
        uppers,
        upper: second,
        more: third,
    })
}

/// The types without rows.
pub(crate) fn first_families(alloc: Global, arena: &mut Arena<'_>) -> Result<Families, AllocError> {
    let never = plain_type(alloc, arena, Plain::Never)?;
    let none = Over {
        values: never,
        lowers: never,
        uppers: never,
        last: never,
    };
    families_over(alloc, arena, none)
}

/// The types whose rows have the types of a level in their field `x`: 16 rows each.
pub(crate) fn next_families(
    alloc: Global,
    arena: &mut Arena<'_>,
    from: &Families,
) -> Result<Families, AllocError> {
    let lowers = rows(alloc, arena, from.lowers.as_slice(), from.lower)?;
    let uppers = rows(alloc, arena, from.uppers.as_slice(), from.more)?;
    let last = rows(alloc, arena, from.uppers.as_slice(), from.upper)?;
    let values = strings_and_true(alloc, arena)?;
    let over = Over {
        values,
        lowers,
        uppers,
        last,
    };
    families_over(alloc, arena, over)
}
