//! The builtins that are declared where no declaration file is named: one table, with what its lines say as plain data.
//!
//! Contracts speak of the table as it stands in `specs/Standard.antt`: what its lines declare, and the paths in their order.
#![tactic(auto)]

pub mod laws;
pub mod rows;
mod table;

pub use table::{Declaration, Kinds, Line, declared_by, paths};
