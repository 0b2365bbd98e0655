//! What the rules of reports ask of a module's syntax and names.
//!
//! Contracts speak of the rules of the module (`specs/Facts.antt`), and say of each answer which definition of
//! `report_rules` it is. `specs/Ordered.antt` says of which modules the calls may be asked.
#![tactic(auto)]

mod effects;
mod facts;
mod later;
pub mod laws;
mod leaving;
mod locals;
mod stirs;
mod targets;
mod touched;

pub use effects::{expands, last_expands};
pub use facts::Facts;
pub use leaving::{
    block_branches, block_breaks, block_returns, stat_branches, stat_breaks, stat_returns,
};
pub use targets::{Target, is_in_table};
