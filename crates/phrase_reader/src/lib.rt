//! What the parsers of all phrases share: places in a list of tokens, and the functions that read the phrases that hold one
//! another.
#![tactic(auto)]

mod grammar;
mod listed;
mod singles;
mod tokens;
mod type_fronts;

pub use grammar::Grammar;
pub use listed::{Listed, begin_of, in_parens, is_type_front, pack_of};
pub use singles::one;
pub use tokens::{MAX_LEVEL, Tokens, copy, deeper};
