//! That what the rules report of a folder is certain. There is no program here: this is a law.
#![tactic(auto)]

pub mod examples;
pub mod laws;
