//! What written types mean, and what the types that are written for parameters say of arguments.
//!
//! Definitions and laws (`specs/Lowered.antt`, `specs/Annotated.antt`); the examples are computed.
#![tactic(auto)]

pub mod examples;
pub mod laws;
