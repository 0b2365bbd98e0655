//! The fault that the parser of a text tells stands at its least place.
#![tactic(auto)]

pub mod laws;
