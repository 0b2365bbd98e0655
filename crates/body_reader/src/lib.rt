//! The parser of function bodies, and of what stands before them.
#![tactic(auto)]

mod bodies;
mod reader;

pub use reader::Bodies;
