//! Types as interned nodes: a node names its parts by references, equal nodes of one arena have one reference, and a
//! reference keeps its meaning for as long as the arenas that it reaches are kept.
#![tactic(auto)]

mod arena;
mod containers;
mod frozen;
mod laws;
mod node;
mod nodes;
mod opening;
mod shelves;
mod shelving;

pub use arena::Arena;
pub use containers::{Label, List, Text};
pub use frozen::Frozen;
pub use laws::{
    frozen_arenas_stand_on_longer_shelves, meaning_is_by_nodes, meaning_is_by_what_is_reached,
    meaning_is_kept, reached_references_are_there, references_lead_down, shelves_grow_at_the_end,
};
pub use node::{Among, FnName, Node, Row, TypeRef};
pub use nodes::Nodes;
pub use opening::over;
pub use shelves::Shelf;
pub use shelving::shelf;

#[cfg(test)]
mod tests;
