//! What the contexts and the reports of each part of a module are made of: tasks that stand for a part, and the tasks that are put in
//! the place of one.
#![tactic(auto)]

mod branches;
mod check;
mod compounds;
mod exprs;
mod forms;
mod items;
mod kinds;
mod lists;
mod plan;
mod reports;
mod stats;
mod targets;
mod task;
mod writes;

pub use check::Check;
pub use forms::{before, expr, found, passed};
pub use kinds::{block, body, stat};
pub use targets::target;
pub use task::{
    AnswerStep, AskStep, BaseTask, BehindStep, BodyTask, CheckTask, ExprTask, LoopStep, StatTask,
    Task,
};
