//! The fault of a text.
#![tactic(auto)]

pub mod laws;
mod module;

pub use module::parse_text;
