//! The module grammar: which tree a list of tokens has.
#![tactic(auto)]

mod error;
pub mod laws;
mod symbol;

pub use error::ParseError;
pub use symbol::{
    Symbol, begins_block, begins_expression, begins_type, binary_of, closes, compound_of, same,
    symbol_of, unary_of,
};
