//! The parser: the syntax tree of a module's text, with the numbers of its expressions and bodies.
#![tactic(auto)]

mod module;

pub use module::parse;
