//! The words of a command: which words are one, and what it says.
//!
//! A command has the form `[--workers N] [--format text|json] [--decl FILE] FOLDER`. Contracts speak of the definition
//! `command` in `specs/Command.antt`, which has the rule whole.
#![tactic(auto)]

pub mod laws;
mod name;
mod options;
mod part;
mod reading;
pub mod rows;
mod values;
mod words;

pub use options::{Format, Options, Source};
pub use words::command;
