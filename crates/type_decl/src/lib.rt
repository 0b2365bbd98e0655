//! Tables of declared builtins: their signatures, as references into an arena of the table's own.
//!
//! Contracts speak of the signatures that a table gives its paths (`specs/Signatures.antt`, `specs/Tables.antt`).
//! `specs/Runs.antt` says what a table declares for runs.
#![tactic(auto)]

mod building;
mod defaults;
pub mod laws;
mod nodes;
mod sig;
mod table;

pub use defaults::standard;
pub use sig::Sig;
pub use table::SigTable;
