//! Reports of a module: what each says, where it stands, and its message.
#![tactic(auto)]

mod kind;
mod order;
mod report;
mod sorting;
mod told;
mod wording;

pub use kind::ReportKind;
pub use report::Report;
pub use sorting::sort_reports;
pub use wording::message;
