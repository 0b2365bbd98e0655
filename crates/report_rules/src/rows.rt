//! Reports of small modules that are computed. Each is the contract of a function that does
//! nothing.

pub mod calls;
pub mod folders;
pub mod functions;
pub mod loops;
pub mod printing;
pub mod straight;
pub mod types;
pub mod wide;
pub mod writes;
