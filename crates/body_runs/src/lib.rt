//! What a function's body does when it runs, for the proof that reports are certain. There is no program here: these are
//! definitions, with laws.
#![tactic(auto)]

pub mod laws;
