//! The lines of a folder, from its files and the declared builtins. There is no program here: these are definitions, with laws.
#![tactic(auto)]

pub mod laws;
