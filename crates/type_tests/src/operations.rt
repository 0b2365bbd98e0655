//! The operations on types over one arena, with ample memory: what each makes of a type is compared with the type that it
//! has to make, written in another way.
ghost use Rattle.std.specs.Prelude.{IsTrue};
ghost use Rattle.type_arena.specs.Arena.{store_of};
ghost use Rattle.type_arena.specs.Store.{has as has_node};

use crate::making::{here, made};
use crate::written::{Kind, Shape, letter};
use std::alloc::{AllocError, Global};
use std::test::Fail;
use type_arena::{Among, Arena, List, Node, Nodes, Row, TypeRef, over, shelf};
use type_normal::{cut_down, cut_up, is_empty, not_free, strip, strip_at};
use type_ops::{meet, union, widen, widen_at};

// What is made of a type.
#[derive(Clone, Copy, Debug)]
enum Call {
    Normal,
    NotFree,
    Strip,
    Widen,
    StripAt(u8),
    WidenAt(u8),
    CutDown,
    CutUp,
    UnionWith(Shape),
    MeetWith(Shape),
}

const NEVER: Shape = Shape::Plain(Kind::Never);

const UNKNOWN: Shape = Shape::Plain(Kind::Unknown);

const NIL: Shape = Shape::Plain(Kind::Nil);

const STRING: Shape = Shape::Plain(Kind::AnyString);

const TABLE: Shape = Shape::Plain(Kind::Table);

const X: Shape = Shape::X(false, Kind::AnyString);

const X_NIL: Shape = Shape::X(false, Kind::Nil);

const FROZEN: Shape = Shape::X(true, Kind::AnyString);

// A frozen table in whose field is a table that may change, and one whose field is frozen too.
const LOOSE_INSIDE: Shape = Shape::XOfY(true, false, Kind::AnyString);

const FROZEN_INSIDE: Shape = Shape::XOfY(true, true, Kind::AnyString);

// What becomes of what is loose inside: any table may stand there.
const ANY_INSIDE: Shape = Shape::X(true, Kind::Table);

const FORMS: [(Call, Shape, Shape); 10] = [
    (Call::Normal, Shape::StringOrNilButNil, STRING),
    (Call::Normal, Shape::EveryKind(true), UNKNOWN),
    (
        Call::Normal,
        Shape::EveryKind(false),
        Shape::Not(Kind::Table),
    ),
    (
        Call::Normal,
        Shape::NotNotNot(Kind::Builtin),
        Shape::Not(Kind::Builtin),
    ),
    (
        Call::Normal,
        Shape::Two(*b"yx", Kind::Nil, Kind::A),
        Shape::Two(*b"xy", Kind::A, Kind::Nil),
    ),
    (
        Call::Normal,
        Shape::Two(*b"xx", Kind::AnyString, Kind::Nil),
        NEVER,
    ),
    (
        Call::Normal,
        Shape::Two(*b"xx", Kind::AnyString, Kind::A),
        Shape::X(false, Kind::A),
    ),
    (
        Call::Normal,
        Shape::Two(*b"xy", Kind::AnyString, Kind::Unknown),
        X,
    ),
    (
        Call::Normal,
        Shape::Two(*b"xy", Kind::AnyString, Kind::Never),
        NEVER,
    ),
    (Call::Normal, Shape::X(true, Kind::Never), NEVER),
];

const PLAIN_ROWS: [(Call, Shape, Shape); 20] = [
    (Call::UnionWith(NIL), NIL, NIL),
    (Call::MeetWith(X_NIL), X, NEVER),
    (Call::NotFree, UNKNOWN, NEVER),
    (Call::NotFree, X, Shape::EveryKind(false)),
    (Call::Strip, X, NEVER),
    (Call::Widen, X, TABLE),
    (Call::StripAt(b'x'), X, NEVER),
    (Call::StripAt(b'y'), X, X),
    (Call::WidenAt(b'x'), X, TABLE),
    (Call::WidenAt(b'y'), X, X),
    (Call::CutDown, X, X),
    (Call::CutUp, X, X),
    (Call::CutDown, Shape::Texts(false, 17), NEVER),
    (Call::CutUp, Shape::Texts(false, 17), TABLE),
    (
        Call::CutDown,
        Shape::Texts(false, 16),
        Shape::Texts(false, 16),
    ),
    (
        Call::CutUp,
        Shape::Texts(false, 16),
        Shape::Texts(false, 16),
    ),
    (Call::CutDown, Shape::Deep(false, 9), NEVER),
    (Call::CutUp, Shape::Deep(false, 9), TABLE),
    (Call::CutDown, Shape::Deep(false, 8), Shape::Deep(false, 8)),
    (Call::CutUp, Shape::Deep(false, 8), Shape::Deep(false, 8)),
];

const FROZEN_ROWS: [(Call, Shape, Shape); 26] = [
    (Call::Normal, FROZEN, FROZEN),
    (
        Call::UnionWith(Shape::PlainOrFrozen),
        Shape::X(false, Kind::AnyString),
        Shape::PlainOrFrozen,
    ),
    (Call::MeetWith(FROZEN), X, FROZEN),
    (Call::MeetWith(X), FROZEN, FROZEN),
    (Call::MeetWith(TABLE), FROZEN, FROZEN),
    (Call::MeetWith(X_NIL), FROZEN, NEVER),
    (Call::NotFree, FROZEN, Shape::EveryKind(false)),
    (Call::Strip, FROZEN, FROZEN),
    (Call::Strip, LOOSE_INSIDE, NEVER),
    (Call::Strip, FROZEN_INSIDE, FROZEN_INSIDE),
    (Call::Widen, FROZEN, FROZEN),
    (Call::Widen, LOOSE_INSIDE, ANY_INSIDE),
    (Call::Widen, FROZEN_INSIDE, FROZEN_INSIDE),
    (Call::StripAt(b'x'), FROZEN, FROZEN),
    (Call::StripAt(b'y'), LOOSE_INSIDE, NEVER),
    (Call::StripAt(b'z'), LOOSE_INSIDE, LOOSE_INSIDE),
    (Call::WidenAt(b'x'), FROZEN, FROZEN),
    (Call::WidenAt(b'y'), LOOSE_INSIDE, ANY_INSIDE),
    (Call::WidenAt(b'z'), LOOSE_INSIDE, LOOSE_INSIDE),
    (Call::CutDown, FROZEN, FROZEN),
    (Call::CutUp, FROZEN, FROZEN),
    (Call::CutDown, Shape::Texts(true, 17), NEVER),
    (Call::CutUp, Shape::Texts(true, 17), TABLE),
    (Call::CutDown, Shape::Deep(true, 9), NEVER),
    (Call::CutUp, Shape::Deep(true, 9), TABLE),
    (Call::CutDown, Shape::Deep(true, 8), Shape::Deep(true, 8)),
];

const EMPTY: [(Shape, bool); 9] = [
    (NEVER, true),
    (Shape::Two(*b"xx", Kind::AnyString, Kind::Nil), true),
    (NIL, false),
    (UNKNOWN, false),
    (TABLE, false),
    (X, false),
    (FROZEN, false),
    (Shape::Deep(false, 9), false),
    (Shape::Plain(Kind::Literal), false),
];

// What a call makes of a type and another one.
fn both(
    alloc: Global,
    arena: &mut Arena<'_>,
    call: Call,
    at: TypeRef,
    other: TypeRef,
) -> Result<TypeRef, AllocError> {
    here(arena, at)?;
    here(arena, other)?;
    match call {
        Call::UnionWith(_) => union(alloc, arena, at, other),
        _ => meet(alloc, arena, at, other),
    }
}

// What a call makes of a type.
fn answer(
    alloc: Global,
    arena: &mut Arena<'_>,
    call: Call,
    at: TypeRef,
) -> Result<TypeRef, AllocError>
    requires { IsTrue (has_node (store_of arena.old) at) }
{
    match call {
        Call::Normal => Ok(at),
        Call::NotFree => not_free(alloc, arena, at),
        Call::Strip => strip(alloc, arena, at),
        Call::Widen => widen(alloc, arena, at),
        Call::StripAt(name) => strip_at(alloc, arena, at, &letter(alloc, name)?),
        Call::WidenAt(name) => widen_at(alloc, arena, at, &letter(alloc, name)?),
        Call::CutDown => cut_down(alloc, arena, at),
        Call::CutUp => cut_up(alloc, arena, at),
        Call::UnionWith(shape) | Call::MeetWith(shape) => {
            let other = made(alloc, arena, shape)?;
            both(alloc, arena, call, at, other)
        }
    }
}

// The first case whose call makes another type than it has to.
fn first_other(alloc: Global, cases: &[(Call, Shape, Shape)]) -> Result<Option<usize>, AllocError> {
    let mut arena = over(alloc, shelf(&[]), 0)?;
    for (i, case) in cases.iter().enumerate() {
        let at = made(alloc, &mut arena, case.1)?;
        let got = answer(alloc, &mut arena, case.0, at)?;
        let wanted = made(alloc, &mut arena, case.2)?;
        if got != wanted {
            return Ok(Some(i));
        }
    }
    Ok(None)
}

#[test]
fn written_types_have_normal_forms(rt: HostRuntime) -> Result<(), Fail> {
    assert_eq!(rt; first_other(rt.alloc(), &FORMS)?, None);
    Ok(())
}

#[test]
fn rows_that_may_change(rt: HostRuntime) -> Result<(), Fail> {
    assert_eq!(rt; first_other(rt.alloc(), &PLAIN_ROWS)?, None);
    Ok(())
}

#[test]
fn frozen_rows(rt: HostRuntime) -> Result<(), Fail> {
    assert_eq!(rt; first_other(rt.alloc(), &FROZEN_ROWS)?, None);
    Ok(())
}

#[test]
fn types_without_values(rt: HostRuntime) -> Result<(), Fail> {
    let alloc = rt.alloc();
    let mut arena = over(alloc, shelf(&[]), 0)?;
    for case in &EMPTY {
        let at = made(alloc, &mut arena, case.0)?;
        assert_eq!(rt; is_empty(&arena, at), case.1);
    }
    Ok(())
}

// A type with strings and rows alone.
fn node(alloc: Global, strings: bool, rows: Vec<Row>) -> Node {
    let none = List::of(Vec::new(alloc));
    Node {
        nil: false,
        truth: false,
        falsity: false,
        number: false,
        other: false,
        strings: if strings {
            Among::AllBut(none)
        } else {
            Among::Only(none)
        },
        functions: Among::Only(List::of(Vec::new(alloc))),
        rows: List::of(rows),
    }
}

// The row of the tables whose field `x` is in a type.
fn row(alloc: Global, at: TypeRef) -> Result<Vec<Row>, AllocError> {
    let mut fields = Vec::new(alloc);
    fields.push((letter(alloc, b'x')?, at))?;
    let mut rows = Vec::new(alloc);
    rows.push(Row {
        frozen: false,
        fields: List::of(fields),
    })?;
    Ok(rows)
}

#[test]
fn types_have_their_nodes(rt: HostRuntime) -> Result<(), Fail> {
    let alloc = rt.alloc();
    let mut arena = over(alloc, shelf(&[]), 0)?;
    let tables = made(alloc, &mut arena, X)?;
    let strings = made(alloc, &mut arena, Shape::StringOrNilButNil)?;
    assert!(rt; arena.has(tables) & arena.has(strings));
    assert!(rt; *arena.node(strings) == node(alloc, true, Vec::new(alloc)));
    assert!(rt; *arena.node(tables) == node(alloc, false, row(alloc, strings)?));
    Ok(())
}
