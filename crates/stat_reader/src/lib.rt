//! The parser of statements and of blocks, behind the level at which they stand.
#![tactic(auto)]

mod assignments;
mod branches;
mod declarations;
mod kinds;
mod reader;
mod statements;

pub use reader::Stats;
