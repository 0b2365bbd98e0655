//! Modules that are read off their own trees, and folders of these. There is no program here: these are definitions, with laws.
#![tactic(auto)]

pub mod laws;
