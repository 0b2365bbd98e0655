//! Folders by their plans: which modules are checked, in which order, and what follows for them. There is no program here: these
//! are definitions, with laws.
#![tactic(auto)]

pub mod laws;
