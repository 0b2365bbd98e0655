//! The types of a module's expressions: one walk over its tree, which does one task after the other (`infer_plan`), each step by
//! its call of the state (`rule_state`).
#![tactic(auto)]

mod bodies;
mod exprs;
mod go;
mod handing;
mod imports;
mod labels;
mod names;
mod steps;
mod types;
mod walk;
mod writes;

pub use imports::Imports;
pub use types::{Types, types_of};
