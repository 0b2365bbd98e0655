//! The grammar of declaration files: which declarations a list of tokens is.
#![tactic(auto)]

pub mod laws;
mod mark;
pub mod samples;

pub use mark::Mark;
