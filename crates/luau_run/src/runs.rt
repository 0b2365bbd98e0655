//! Runs of small programs that are computed. Each is the contract of a function that does nothing.

pub mod acts;
pub mod call_of_abs;
pub mod calls;
pub mod loops;
pub mod modules;
pub mod operators;
