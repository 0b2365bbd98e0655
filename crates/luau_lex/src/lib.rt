//! The tokens of a text: names, words, numerals, strings and signs, each with its place.
#![tactic(auto)]

mod brackets;
mod bytes;
mod elements;
mod front;
mod gaps;
mod interpolation;
pub mod laws;
mod names;
mod numerals;
mod piece;
mod reader;
mod signs;
mod strings;
mod token;
mod values;

pub use reader::lex;
pub use token::{Kind, LexError, Token};
pub use values::value_of;
