//! What runs and rules read of a module: its tree, what its names stand for, and what its annotations say. There is no
//! program here: these are definitions, with laws.
#![tactic(auto)]

pub mod laws;
