//! What the names of a module stand for, and what the profile refuses in it.
//!
//! Contracts speak of what is found in a module in the order of its text (`specs/Found.antt`, `specs/Finds.antt`), of
//! the locals and uses that come of it (`specs/Locals.antt`), and of the first refusal (`specs/Refusals.antt`).
#![tactic(auto)]

pub mod examples;
mod findings;
mod growing;
pub mod laws;
mod lookup;
mod names;
mod numbers;
mod reading;
mod refusal;
pub mod refusals;
mod resolver;
mod scope;
mod task;
mod visit_exprs;
mod visit_locals;
mod visit_stats;
mod visit_types;
mod walker;
mod within;

pub use reading::{LocalInfo, RequireSite, Scoped, Use};
pub use refusal::{Refusal, ScopeError};
pub use resolver::resolve;
