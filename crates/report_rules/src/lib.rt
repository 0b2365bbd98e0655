//! Which code of a module is reported, and why. There is no program here: these are definitions,
//! with laws.
#![tactic(auto)]

pub mod laws;
pub mod rows;
