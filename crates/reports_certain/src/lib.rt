//! The proof that what the rules report of a program is certain. There is no program here: this is a law.
#![tactic(auto)]

pub mod laws;
