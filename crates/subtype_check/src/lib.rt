//! Subtyping of types in normal form.
#![tactic(auto)]

mod checking;
pub mod examples;
mod free;
mod known;
pub mod laws;
mod samples;
pub mod telling;

pub use checking::{below, listed};
pub use free::{has_all_values, is_free_below};
pub use known::Pair;
pub use samples::{Sample, apart};

#[cfg(test)]
mod tests;
