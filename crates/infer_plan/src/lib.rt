//! What each part of a module is made of, as the rules on what is known go through it: tasks that stand for a part, and the tasks
//! that are put in the place of one.
//!
//! A part is put in the place of its parts by the call that has its name: what all tasks together make of what is at hand
//! (`specs/Run.antt`) stays what it was, and they weigh less (`specs/Weights.antt`). So who does one task after the other,
//! each step by its own means and each part by these calls, does what the rules say, and comes to an end.
#![tactic(auto)]

mod branches;
mod exprs;
mod forms;
mod items;
mod kinds;
mod lists;
mod plan;
mod stats;
mod task;
mod writes;

pub use branches::body;
pub use exprs::name_of_key;
pub use forms::{expr, form, target};
pub use kinds::stat;
pub use lists::{block, targets, values};
pub use task::{BodyTask, ExprTask, ListTask, NameTask, StatTask, Step, Task, WriteTask};
