//! Outputs in the order of their numbers.
ghost use Rattle.std.specs.Prelude.{◌≡◌, map, IfOk};
ghost use Rattle.level_workers.specs.Outputs.{InOrder};

use std::alloc::{AllocError, Global};

pub(crate) fn in_order<O: Drop>(
    alloc: Global,
    mut outputs: Vec<(u32, O)>,
) -> Result<Vec<O>, AllocError>
    ensures { IfOk result (λ xs. InOrder outputs.items xs.items) }
{
    outputs.sort_by_key(|output| output.0)?;
    without_numbers(alloc, outputs)
}

fn without_numbers<O: Drop>(alloc: Global, outputs: Vec<(u32, O)>) -> Result<Vec<O>, AllocError>
    ensures { IfOk result (λ xs. xs.items ≡ map (λ output. output.1) outputs.items) }
{
    outputs.into_iter().map(|(_, output)| output).collect(alloc)
}
