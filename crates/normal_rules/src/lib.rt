//! That the types of a module by the rules are in normal form. There is no program here: these are laws.
#![tactic(auto)]

pub mod laws;
