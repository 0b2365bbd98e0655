//! Values and heaps of Luau code, and how a heap may change while code runs.
#![tactic(auto)]

pub mod growth;
pub mod laws;
pub mod standing;
pub mod start;
