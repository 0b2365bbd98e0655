//! The faults of a list of tokens at their least places.
#![tactic(auto)]

pub mod laws;
