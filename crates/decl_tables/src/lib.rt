//! What declaration files mean: which lists of declarations are a table of signatures, and which one.
#![tactic(auto)]

mod error;
pub mod laws;
pub mod samples;

pub use error::DeclError;
