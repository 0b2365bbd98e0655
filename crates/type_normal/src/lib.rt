//! Types in normal form, and what they mean.
#![tactic(auto)]

mod complement;
mod cut;
mod emptiness;
pub mod examples;
pub mod heap_laws;
pub mod laws;
mod listing;
mod rows;
mod shape;
mod stripping;

pub use complement::not_free;
pub use cut::{cut_down, cut_up};
pub use emptiness::is_empty;
pub use stripping::{strip, strip_at};

#[cfg(test)]
mod tests;
