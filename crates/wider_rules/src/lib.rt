//! What the stated parser does under wider rules.
#![tactic(auto)]

pub mod laws;
