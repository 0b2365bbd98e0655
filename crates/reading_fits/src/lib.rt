//! That what the rules read of a module fits what its runs read. There is no program here: these are definitions, with laws.
#![tactic(auto)]

pub mod examples;
pub mod laws;
