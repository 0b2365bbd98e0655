//! The modules that reach each other.
ghost use Rattle.std.specs.Prelude.{◌≡◌, IfOk, map};
ghost use Rattle.module_graph.specs.Search.{IsGraph, number_of as number_in};
ghost use Rattle.module_graph.specs.Components.{AreComponents};

use crate::node::Node;
use crate::search::{Mark, Search};
use std::alloc::{AllocError, Global};

/// The modules of a folder with numbers: equal ones reach each other, and none requires one with a higher number.
#[derive(Drop)]
pub struct Components {
    /// The number of each module, at its position.
    pub numbers: Vec<usize>,
    /// All modules in the order of their numbers.
    pub order: Vec<usize>,
}

/// The number of a closed module.
fn number_of(mark: Mark) -> usize
    ensures { result ≡ number_in mark }
{
    match mark {
        Mark::Closed { number } => number,
        Mark::New | Mark::Open { .. } => 0,
    }
}

/// The numbers of closed modules.
fn numbers_of(alloc: Global, marks: &[Mark]) -> Result<Vec<usize>, AllocError>
    ensures { IfOk result (λ numbers. numbers.items ≡ map number_in marks.now) }
{
    marks.iter().map(|mark| number_of(*mark)).collect(alloc)
}

/// Numbers the modules of a folder.
pub fn find_components(alloc: Global, nodes: &[Node]) -> Result<Components, AllocError>
    requires { IsGraph nodes.now }
    ensures { IfOk result (λ found. AreComponents nodes.now found.numbers.items found.order.items) }
{
    let mut search = Search::new(alloc, nodes.len())?;
    for file in 0..nodes.len() {
        search.visit(nodes, file)?;
    }
    let numbers = numbers_of(alloc, &search.marks)?;
    Ok(Components {
        numbers,
        order: search.order,
    })
}
