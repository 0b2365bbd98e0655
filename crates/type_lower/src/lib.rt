//! What written types mean, as references into an arena.
//!
//! A walk over a tree keeps the names that are visible in `Aliases`: `put_alias` at an alias, `enter` at a function, which
//! answers the types of its parameters too, and `close` behind a block or a function, with the number of names at its begin.
//! `lower` answers a reference to the type that a written type means there. The definitions are those of `annotations`;
//! `specs/Visible.antt` says which names are known, and the law that these types are the annotations of the module.
#![tactic(auto)]

mod aliases;
mod choosing;
pub mod laws;
mod lowering;
mod marks;
mod parameters;
mod plain;
mod props;
mod visible;

pub use aliases::Aliases;
pub use lowering::lower;
pub use parameters::enter;
pub use visible::{put_alias, put_generics};
