//! Subtyping of types in normal form, with memory: each pair of types that is met is compared once.
#![tactic(auto)]

pub mod laws;
mod memory;
mod remembering;

pub use memory::Remembered;
