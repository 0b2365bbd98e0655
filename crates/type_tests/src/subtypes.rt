//! Which types are below others, as the call without memory and the one with memory say.

use crate::making::{Families, first_families, here, made, next_families};
use crate::written::{Kind, Shape};
use std::alloc::{AllocError, Global};
use std::test::Fail;
use subtype_check::below;
use subtype_memory::Remembered;
use type_arena::{Arena, TypeRef, over, shelf};

const NEVER: Shape = Shape::Plain(Kind::Never);

const UNKNOWN: Shape = Shape::Plain(Kind::Unknown);

const NIL: Shape = Shape::Plain(Kind::Nil);

const STRING: Shape = Shape::Plain(Kind::AnyString);

const TABLE: Shape = Shape::Plain(Kind::Table);

const X: Shape = Shape::X(false, Kind::AnyString);

const FROZEN: Shape = Shape::X(true, Kind::AnyString);

const X_AND_Y: Shape = Shape::Two(*b"xy", Kind::AnyString, Kind::AnyString);

const CASES: [(Shape, Shape, bool); 24] = [
    (Shape::Plain(Kind::A), STRING, true),
    (STRING, Shape::Plain(Kind::A), false),
    (NIL, STRING, false),
    (NEVER, NIL, true),
    (STRING, UNKNOWN, true),
    (UNKNOWN, STRING, false),
    (
        Shape::Either(Kind::Nil, Kind::A),
        Shape::Not(Kind::Number),
        true,
    ),
    (Shape::Either(Kind::Nil, Kind::A), STRING, false),
    (X, Shape::XNot(Kind::Number), true),
    (Shape::XNot(Kind::Number), X, false),
    (FROZEN, X, true),
    (X, FROZEN, false),
    (X_AND_Y, X, true),
    (X, X_AND_Y, false),
    (X, Shape::Two(*b"xy", Kind::AnyString, Kind::Unknown), true),
    (X, TABLE, true),
    (TABLE, X, false),
    (X, Shape::Not(Kind::Table), false),
    (Shape::Plain(Kind::Builtin), Shape::Not(Kind::Literal), true),
    (Shape::Not(Kind::Builtin), Shape::Not(Kind::Literal), false),
    (Shape::Not(Kind::A), STRING, false),
    (STRING, Shape::Not(Kind::A), false),
    (Shape::Deep(true, 8), Shape::Deep(false, 8), true),
    (Shape::Deep(false, 8), Shape::Deep(true, 8), false),
];

// Two types, and whether the one is below the other.
type Case = (TypeRef, TypeRef, bool);

// The types of the cases.
fn refs(alloc: Global, arena: &mut Arena<'_>) -> Result<Vec<Case>, AllocError> {
    let mut cases = Vec::new(alloc);
    for case in &CASES {
        let lower = made(alloc, arena, case.0)?;
        let upper = made(alloc, arena, case.1)?;
        cases.push((lower, upper, case.2))?;
    }
    Ok(cases)
}

// The first case in which one of the two calls says otherwise.
fn first_other(
    alloc: Global,
    arena: &Arena<'_>,
    cases: &[Case],
) -> Result<Option<Case>, AllocError> {
    let mut remembered = Remembered::new(alloc);
    for case in cases {
        here(arena, case.0)?;
        here(arena, case.1)?;
        let found = remembered.below(arena, case.0, case.1)?;
        let again = remembered.below(arena, case.0, case.1)?;
        let anew = below(arena, case.0, case.1);
        if (found != case.2) | (again != case.2) | (anew != case.2) {
            return Ok(Some(*case));
        }
    }
    Ok(None)
}

#[test]
fn types_below_others(rt: HostRuntime) -> Result<(), Fail> {
    let alloc = rt.alloc();
    let mut arena = over(alloc, shelf(&[]), 0)?;
    let cases = refs(alloc, &mut arena)?;
    assert_eq!(rt; first_other(alloc, &arena, cases.as_slice())?, None);
    Ok(())
}

// Whether the last lower type is below the last upper one, and below no other, as one memory says.
fn is_below_the_last(
    alloc: Global,
    arena: &Arena<'_>,
    families: &Families,
) -> Result<bool, AllocError> {
    let mut remembered = Remembered::new(alloc);
    here(arena, families.lower)?;
    here(arena, families.upper)?;
    let mut alone = remembered.below(arena, families.lower, families.upper)?;
    for upper in &families.uppers {
        here(arena, *upper)?;
        let other = remembered.below(arena, families.lower, *upper)?;
        alone &= !other;
    }
    Ok(alone)
}

#[test]
fn families_of_eight_levels_are_compared_at_once(rt: HostRuntime) -> Result<(), Fail> {
    let alloc = rt.alloc();
    let mut arena = over(alloc, shelf(&[]), 0)?;
    let mut families = first_families(alloc, &mut arena)?;
    for _ in 0..8 {
        families = next_families(alloc, &mut arena, &families)?;
    }
    assert!(rt; is_below_the_last(alloc, &arena, &families)?);
    Ok(())
}
