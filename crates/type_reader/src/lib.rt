//! The parser of types, behind the level at which they stand.
#![tactic(auto)]

mod forms;
mod properties;
mod reader;
mod type_options;

pub use reader::Types;
