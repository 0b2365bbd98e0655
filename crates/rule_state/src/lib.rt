//! The state in which the rules of a module are applied: the type at hand, what is known of the locals, and what was seen.
//!
//! Contracts speak of plain types and maps, for which a state stands (`specs/Work.antt`), and of what each call makes of them
//! (`rule_work`); how types lie in an arena is no part of them. What stays is known from `RuleState::new` on.
#![tactic(auto)]

mod answers;
mod calls;
mod choosing;
mod conditions;
mod ends;
mod guarding;
mod knowing;
mod lists;
mod maps;
mod marking;
mod operators;
mod point;
mod starting;
mod state;
mod tables;
mod values;

pub use answers::Answers;
pub use point::Seen;
pub use state::RuleState;
