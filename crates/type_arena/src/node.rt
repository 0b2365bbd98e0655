use crate::containers::{Label, List};

/// A reference to a node: the home of its arena, and its position among the nodes there.
#[derive(Clone, Copy, Debug, PartialEq, Eq, PartialOrd, Ord, Hash)]
pub struct TypeRef {
    /// The home of the arena that has the node.
    pub home: u32,
    /// The node's position in that arena, from 0.
    pub id: u64,
}

/// A function that a type can name: a builtin by its path, or a function literal by the home of its module and its
/// number there. Builtins come before literals.
#[derive(Clone, Debug, Drop, PartialEq, Eq, PartialOrd, Ord, Hash)]
pub enum FnName {
    /// The builtin with this path.
    Builtin(Label),
    /// The function literal with this number in the module with this home.
    Literal {
        /// The module's home.
        home: u32,
        /// The literal's number in its module.
        number: u32,
    },
}

/// A set of strings or of functions: these members alone, or all but these. The order of the list is part of the
/// set's form: in normal form it is sorted, and sets with one list in two orders are two values.
#[derive(Clone, Debug, Drop, PartialEq, Eq, PartialOrd, Ord, Hash)]
pub enum Among<T> {
    /// These members and no others.
    Only(List<T>),
    /// Everything but these.
    AllBut(List<T>),
}

/// A row: the tables whose fields are in these types. In normal form the fields are sorted by name; rows with one list of
/// fields in two orders are two values.
#[derive(Clone, Debug, Drop, PartialEq, Eq, Hash)]
pub struct Row {
    /// Whether the table has to be frozen.
    pub frozen: bool,
    /// The name and the type of each field that the row speaks of.
    pub fields: List<(Label, TypeRef)>,
}

/// A type: its free part, which names no field, and its rows.
#[derive(Clone, Debug, Drop, PartialEq, Eq, Hash)]
pub struct Node {
    /// Whether nil belongs to it.
    pub nil: bool,
    /// Whether true belongs to it.
    pub truth: bool,
    /// Whether false belongs to it.
    pub falsity: bool,
    /// Whether the numbers belong to it.
    pub number: bool,
    /// Whether the values of no other kind belong to it.
    pub other: bool,
    /// The strings that belong to it.
    pub strings: Among<Label>,
    /// The functions that belong to it.
    pub functions: Among<FnName>,
    /// The rows whose tables belong to it.
    pub rows: List<Row>,
}
