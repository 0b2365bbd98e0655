//! The frame of the proof that reports are certain: what holds of a run's states between its parts, and what a part may
//! change. There is no program here: these are definitions, with laws.
#![tactic(auto)]

pub mod laws;
