//! Tasks that are put in the place of one.
ghost use Rattle.std.specs.Prelude.{◌≡◌, ◌≤◌, ◌+◌, OnOk};
ghost use Rattle.report_rules.specs.Rules.{Rules};
ghost use Rattle.rule_work.specs.Work.{Work};
ghost use Rattle.infer_plan.specs.Run.{run, in_order};
ghost use Rattle.infer_plan.specs.Weights.{weights};

use crate::task::Task;
use std::alloc::AllocError;

/// Some tasks are to be done before those that are there, the first of them first.
pub(crate) fn plan<'t>(tasks: &mut Vec<Task<'t>>, parts: &[Task<'t>]) -> Result<(), AllocError>
    ensures work { OnOk result ((rules : Rules) (work : Work) → run rules tasks.new.items work ≡ run rules tasks.old.items (in_order rules parts.now work)) }
    ensures light { OnOk result (weights tasks.new.items ≤ weights tasks.old.items + weights parts.now) }
{
    for i in (0..parts.len()).rev() {
        tasks.push(parts[i])?;
    }
    Ok(())
}
