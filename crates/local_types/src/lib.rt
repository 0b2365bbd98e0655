//! What is known of the locals at a point of a module: maps from their numbers to types, of which none is ever copied.
#![tactic(auto)]

mod adding;
mod changes;
mod changing;
mod combining;
mod forgetting;
mod joining;
mod made;
mod naming;
mod node;
mod reading;
mod refining;
mod single;
mod types;

pub use changes::{Change, How};
pub use node::{LocalMap, Point};
pub use refining::Refined;
pub use types::LocalTypes;
