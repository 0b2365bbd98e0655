//! The types of a module while contexts are made of them: sets of values and contexts, which stand in an arena.
//!
//! Contracts speak of plain sets and contexts (`specs/Types.antt`), and of what stands in the arena (`specs/Standing.antt`). Each
//! call only adds to the arena, after want of memory too.
#![tactic(auto)]

mod branching;
mod choosing;
mod contexts;
mod deciding;
mod lists;
mod sets;
mod types;
mod writing;

pub use deciding::Way;
pub use lists::{Each, copied, first_copied, nothing, spread, unfailing};
pub use types::ContextTypes;
