//! Tests of the calls on types, by public calls alone, in one crate above them all. It has nothing but tests.
#![tactic(auto)]

#[cfg(test)]
mod making;
#[cfg(test)]
mod operations;
#[cfg(test)]
mod subtypes;
#[cfg(test)]
mod written;
