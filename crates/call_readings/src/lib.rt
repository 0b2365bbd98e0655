//! That modules of the built form, read off their trees, are read as their calls. There is no program here: these are laws.
#![tactic(auto)]

pub mod laws;
