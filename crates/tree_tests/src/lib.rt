//! Tests of the calls on texts, trees and names, by public calls alone, in one crate above them all. It has nothing but
//! tests.
#![tactic(auto)]

#[cfg(test)]
mod numbers;
#[cfg(test)]
mod scopes;
#[cfg(test)]
mod tokens;
