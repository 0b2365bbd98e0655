//! The parser of expressions, behind the level at which they stand.
#![tactic(auto)]

mod expressions;
mod interpolated;
mod operations;
mod reader;

pub use reader::Exprs;
