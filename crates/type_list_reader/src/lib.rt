//! The parser of lists of types: members in parentheses, results, type arguments and generic parameters.
#![tactic(auto)]

mod generics;
mod members;
mod reader;
mod results;

pub use reader::TypeLists;
