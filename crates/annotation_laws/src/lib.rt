//! What the rules of a module say of the parameters of its functions.
#![tactic(auto)]

pub mod laws;
