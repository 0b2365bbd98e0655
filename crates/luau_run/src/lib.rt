//! What a run of Luau modules is, and what it is for reports to be certain: a part of the code that
//! is reported is left only by a run-time error. There is no program here: these are definitions,
//! with laws.
#![tactic(auto)]

pub mod laws;
pub mod read_folders;
pub mod runs;
