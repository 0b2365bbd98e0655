//! The fault of a list of tokens without a tree, by the grammar alone.
#![tactic(auto)]

pub mod laws;
