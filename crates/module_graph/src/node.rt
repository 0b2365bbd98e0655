use luau_tree::{List, Span};

/// A static require, with the position of the module that it means, if there is one.
#[derive(Clone, Copy, Debug)]
pub struct Call {
    pub at: Span,
    pub to: Option<u32>,
}

/// A module as the graph sees it: whether it was refused already, and its requires, which are none then.
#[derive(Debug, Drop)]
pub struct Node {
    pub refused: bool,
    pub calls: List<Call>,
}
