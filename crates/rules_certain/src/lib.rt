//! Reports of the built form are certain: of modules that are lists of calls of the checked builtin `math.abs`, each with
//! one literal. There is no program here: these are definitions, with laws.
#![tactic(auto)]

pub mod examples;
pub mod laws;
