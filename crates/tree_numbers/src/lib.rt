//! The numbers of a tree's expressions and bodies: each has its place in the order of the text, counted from 0.
//!
//! Contracts speak of the plain tree, as those of `luau_tree` do; `specs/Numbered.antt` says which number each part gets.
#![tactic(auto)]

mod error;
mod exprs;
mod laws;
mod lists;
mod module;
mod numbers;
mod parts;
mod pass;
mod stats;
mod tails;
mod type_parts;
mod types;

pub use error::NumberError;
pub use laws::{
    numbering_changes_numbers_alone, numbers_depend_on_no_numbers,
    numbers_stand_in_the_order_of_the_text, the_sample_is_numbered,
};
pub use module::number;
