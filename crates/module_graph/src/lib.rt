//! Which module requires which, and what follows: the modules that are refused or skipped, and the levels in which the
//! others can be checked.
#![tactic(auto)]

mod components;
mod fates;
mod laws;
mod levels;
mod names;
mod needs;
mod node;
mod nodes;
mod planning;
mod search;
mod standing;

pub use laws::{
    checked_modules_require_checked_ones, fates_are_unique, levels_list_checked_modules,
    levels_stand_on_levels, skipped_modules_reach_refused_ones, the_order_of_needs_does_not_matter,
};
pub use needs::{Fate, GraphRefusal, ModuleNeeds, Need, Plan};
pub use planning::{MAX_MODULES, plan};

#[cfg(test)]
mod tests;
