//! What follows from the grammar for the places of a tree's nodes in the text.
#![tactic(auto)]

pub mod laws;
