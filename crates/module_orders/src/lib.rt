//! That the tree of a text stands in the order of the text. There is no program here: it is a law.
#![tactic(auto)]

pub mod laws;
