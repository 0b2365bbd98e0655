//! What a refused token says of lists of tokens that go on otherwise behind it.
#![tactic(auto)]

pub mod laws;
