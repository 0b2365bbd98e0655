//! The lines of a module's reports.
#![tactic(auto)]

mod lines;

pub use lines::push_report_lines;
