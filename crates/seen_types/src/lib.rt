//! What was found of the types of a module's expressions and parameters, by their numbers.
//!
//! Answers are references, which mean the same in every arena that has their nodes. `specs/Seen.antt` says what a list of what was
//! seen answers, and what it stands for among the rules.
#![tactic(auto)]

mod indexing;
mod params;
mod seen;
mod table;

pub use params::ParamTypes;
pub use seen::Seen;
pub use table::SeenTypes;
