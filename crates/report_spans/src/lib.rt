//! Where reports stand in a text. There is no program here: these are definitions, with laws.
#![tactic(auto)]

pub mod laws;
