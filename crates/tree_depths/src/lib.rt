//! How deep the trees of tokens are, for every list of tokens. There is no program here: it is a law.
#![tactic(auto)]

pub mod laws;
