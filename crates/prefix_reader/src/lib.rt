//! The parser of prefixes: names and expressions in parentheses, with indices, fields and calls behind them.
#![tactic(auto)]

mod reader;
mod suffixes;

pub use reader::Prefixes;
