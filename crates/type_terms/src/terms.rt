use sqlite_items::{Boxed, Items};
use type_arena::{FnName, Label};

/// A type as it is written: kinds, single values, rows, unions, meets and complements, in any order and depth.
#[cycle(terms)]
#[derive(Debug, Drop)]
pub enum TypeTerm {
    /// No value.
    Never,
    /// Every value.
    Unknown,
    /// Nil.
    Nil,
    /// True.
    True,
    /// False.
    False,
    /// The numbers.
    Number,
    /// One string.
    Str(Label),
    /// The strings.
    AnyString,
    /// The functions.
    Function,
    /// One function.
    Named(FnName),
    /// The values of no other kind.
    Other,
    /// The tables.
    Table,
    /// The tables whose fields are in these types, and that are frozen if they have to be.
    Props { frozen: bool, fields: Items<Prop> },
    /// The values of one of these types.
    Union(Items<TypeTerm>),
    /// The values of all of these types.
    Meet(Items<TypeTerm>),
    /// The values that don't belong to a type.
    Not(Boxed<TypeTerm>),
}

/// The name of a field, with its type.
#[cycle(terms)]
#[derive(Debug, Drop)]
pub struct Prop {
    pub name: Label,
    pub typ: TypeTerm,
}
