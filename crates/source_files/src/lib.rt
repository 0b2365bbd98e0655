//! One file of a folder: why it is refused for its size, its name, its text or by the profile, or its tree with what its names
//! stand for.
#![tactic(auto)]

mod fault;
mod file;
pub mod laws;
mod names;
mod reading;
mod reason;

pub use file::SourceFile;
pub use names::text_behind_mark;
pub use reading::{Source, read};
pub use reason::Reason;
