//! The types that the tables of cases speak of, as they are written.

use sqlite_items::{Boxed, Items};
use std::alloc::{AllocError, Global};
use type_arena::{FnName, Label};
use type_terms::{Prop, TypeTerm};

/// Types without fields.
#[derive(Clone, Copy, Debug)]
pub(crate) enum Kind {
    Never,
    Unknown,
    Nil,
    Number,
    /// The string `a`.
    A,
    AnyString,
    Table,
    /// One builtin.
    Builtin,
    /// One function literal.
    Literal,
}

/// The types of the cases.
#[derive(Clone, Copy, Debug)]
pub(crate) enum Shape {
    Plain(Kind),
    /// All values but those of a kind.
    Not(Kind),
    /// What is of neither of two kinds, as the complement of a complement of a complement.
    NotNotNot(Kind),
    /// The values of one of two kinds.
    Either(Kind, Kind),
    /// `(string or nil) and not nil`.
    StringOrNilButNil,
    /// Each kind of values by its name, with or without the tables.
    EveryKind(bool),
    /// The tables whose field `x` is of a kind, frozen ones or all.
    X(bool, Kind),
    /// The tables whose field `x` isn't of a kind.
    XNot(Kind),
    /// The tables with two fields of these names and kinds, as they are written.
    Two([u8; 2], Kind, Kind),
    /// The tables whose field `x` is a table whose field `y` is of a kind; whether either has to be frozen.
    XOfY(bool, bool, Kind),
    /// The tables whose field `x` is a string, and the frozen ones whose field `y` is.
    PlainOrFrozen,
    /// So many rows, whose fields `x` are one string each.
    Texts(bool, u8),
    /// Tables in tables, so deep, with nil in the last.
    Deep(bool, u8),
}

/// A name of one letter.
pub(crate) fn letter(alloc: Global, letter: u8) -> Result<Label, AllocError> {
    Ok(Label::of(vec![in alloc; letter]?))
}

fn plain(alloc: Global, kind: Kind) -> Result<TypeTerm, AllocError> {
    Ok(match kind {
        Kind::Never => TypeTerm::Never,
        Kind::Unknown => TypeTerm::Unknown,
        Kind::Nil => TypeTerm::Nil,
        Kind::Number => TypeTerm::Number,
        Kind::A => TypeTerm::Str(letter(alloc, b'a')?),
        Kind::AnyString => TypeTerm::AnyString,
        Kind::Table => TypeTerm::Table,
        Kind::Builtin => TypeTerm::Named(FnName::Builtin(letter(alloc, b'f')?)),
        Kind::Literal => TypeTerm::Named(FnName::Literal { home: 3, number: 5 }),
    })
}

fn not(alloc: Global, term: TypeTerm) -> Result<TypeTerm, AllocError> {
    Ok(TypeTerm::Not(Boxed::new(alloc, term)?))
}

// Two types, in their order.
fn two(alloc: Global, a: TypeTerm, b: TypeTerm) -> Result<Items<TypeTerm>, AllocError> {
    let mut terms = Vec::new(alloc);
    terms.push(a)?;
    terms.push(b)?;
    Ok(Items::from_vec(terms))
}

// Each kind of values by its name, with or without the tables.
fn every_kind(alloc: Global, tables: bool) -> Result<TypeTerm, AllocError> {
    let mut kinds = Vec::new(alloc);
    kinds.push(TypeTerm::Nil)?;
    kinds.push(TypeTerm::True)?;
    kinds.push(TypeTerm::False)?;
    kinds.push(TypeTerm::Number)?;
    kinds.push(TypeTerm::AnyString)?;
    kinds.push(TypeTerm::Function)?;
    kinds.push(TypeTerm::Other)?;
    if tables {
        kinds.push(TypeTerm::Table)?;
    }
    Ok(TypeTerm::Union(Items::from_vec(kinds)))
}

// The tables with a field of a type.
fn row(alloc: Global, frozen: bool, name: u8, typ: TypeTerm) -> Result<TypeTerm, AllocError> {
    let mut fields = Vec::new(alloc);
    let name = letter(alloc, name)?;
    fields.push(Prop { name, typ })?;
    Ok(TypeTerm::Props {
        frozen,
        fields: Items::from_vec(fields),
    })
}

// The tables with two fields.
fn two_fields(
    alloc: Global,
    names: [u8; 2],
    first: Kind,
    second: Kind,
) -> Result<TypeTerm, AllocError> {
    let [one, other] = names;
    let mut fields = Vec::new(alloc);
    let name = letter(alloc, one)?;
    let typ = plain(alloc, first)?;
    fields.push(Prop { name, typ })?;
    let name = letter(alloc, other)?;
    let typ = plain(alloc, second)?;
    fields.push(Prop { name, typ })?;
    Ok(TypeTerm::Props {
        frozen: false,
        fields: Items::from_vec(fields),
    })
}

// So many rows, whose fields `x` are one string each.
fn texts(alloc: Global, frozen: bool, rows: u8) -> Result<TypeTerm, AllocError> {
    let mut terms = Vec::new(alloc);
    for i in 0..rows {
        let text = TypeTerm::Str(letter(alloc, i)?);
        terms.push(row(alloc, frozen, b'x', text)?)?;
    }
    Ok(TypeTerm::Union(Items::from_vec(terms)))
}

// Tables in tables, so deep, with nil in the last.
fn deep(alloc: Global, frozen: bool, depth: u8) -> Result<TypeTerm, AllocError> {
    let mut typ = TypeTerm::Nil;
    for _level in 0..depth {
        typ = row(alloc, frozen, b'x', typ)?;
    }
    Ok(typ)
}

// `(string or nil) and not nil`.
fn string_or_nil_but_nil(alloc: Global) -> Result<TypeTerm, AllocError> {
    let either = TypeTerm::Union(two(alloc, TypeTerm::AnyString, TypeTerm::Nil)?);
    let rest = not(alloc, TypeTerm::Nil)?;
    Ok(TypeTerm::Meet(two(alloc, either, rest)?))
}

// The tables whose field `x` is a string, and the frozen ones whose field `y` is.
fn plain_or_frozen(alloc: Global) -> Result<TypeTerm, AllocError> {
    let plain = row(alloc, false, b'x', TypeTerm::AnyString)?;
    let frozen = row(alloc, true, b'y', TypeTerm::AnyString)?;
    Ok(TypeTerm::Union(two(alloc, plain, frozen)?))
}

// Types that are made of kinds, without fields.
fn of_kinds(alloc: Global, shape: Shape) -> Result<TypeTerm, AllocError> {
    match shape {
        Shape::Plain(kind) => plain(alloc, kind),
        Shape::Not(kind) => not(alloc, plain(alloc, kind)?),
        Shape::NotNotNot(kind) => {
            let twice = not(alloc, not(alloc, plain(alloc, kind)?)?)?;
            not(alloc, twice)
        }
        Shape::Either(a, b) => {
            let a = plain(alloc, a)?;
            let b = plain(alloc, b)?;
            Ok(TypeTerm::Union(two(alloc, a, b)?))
        }
        Shape::EveryKind(tables) => every_kind(alloc, tables),
        _ => string_or_nil_but_nil(alloc),
    }
}

/// A type of the cases, as it is written.
pub(crate) fn written(alloc: Global, shape: Shape) -> Result<TypeTerm, AllocError> {
    match shape {
        Shape::X(frozen, kind) => row(alloc, frozen, b'x', plain(alloc, kind)?),
        Shape::XNot(kind) => {
            let typ = not(alloc, plain(alloc, kind)?)?;
            row(alloc, false, b'x', typ)
        }
        Shape::Two(names, first, second) => two_fields(alloc, names, first, second),
        Shape::XOfY(outer, inner, kind) => {
            let typ = row(alloc, inner, b'y', plain(alloc, kind)?)?;
            row(alloc, outer, b'x', typ)
        }
        Shape::PlainOrFrozen => plain_or_frozen(alloc),
        Shape::Texts(frozen, rows) => texts(alloc, frozen, rows),
        Shape::Deep(frozen, depth) => deep(alloc, frozen, depth),
        _ => of_kinds(alloc, shape),
    }
}
