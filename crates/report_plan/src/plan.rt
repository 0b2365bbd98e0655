//! Tasks that are put in the place of one.
ghost use Rattle.std.specs.Prelude.{OnOk};
ghost use Rattle.report_plan.specs.Run.{in_order};
ghost use Rattle.report_plan.specs.Puts.{Puts};
ghost use Rattle.report_plan.specs.Weights.{weights};

use crate::task::Task;
use std::alloc::AllocError;

/// Some tasks are to be done before those that are there, the first of them first.
pub(crate) fn plan<'t>(tasks: &mut Vec<Task<'t>>, parts: &[Task<'t>]) -> Result<(), AllocError>
    ensures { OnOk result (Puts tasks.old.items tasks.new.items (λ rules seen. in_order rules seen parts.now) (weights parts.now)) }
{
    for i in (0..parts.len()).rev() {
        tasks.push(parts[i])?;
    }
    Ok(())
}
