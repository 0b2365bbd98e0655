//! What conditions say of values is so: the guards of the rules beside the run's own truth, equality and `type`.
#![tactic(auto)]

pub mod laws;
