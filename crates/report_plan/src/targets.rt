//! Targets of writes.
ghost use Rattle.std.specs.Prelude.{◌≡◌, ◌<◌, ◌+◌, List, OnOk};
ghost use Rattle.luau_tree.specs.View.{view_expr};
ghost use Rattle.report_rules.specs.Rules.{Rules};
ghost use Rattle.report_rules.specs.Seen.{Seen};
ghost use Rattle.report_work.specs.Expressions as listed;
ghost use Rattle.report_work.specs.Statements as stated;
ghost use Rattle.report_work.specs.Work.{Work};
ghost use Rattle.report_plan.specs.Puts.{Puts};
ghost use Rattle.report_plan.specs.Run.{run};
ghost use Rattle.report_plan.specs.Weights.{expr_weight, form_weight, twice, weights};

use crate::check::Check;
use crate::forms::parts;
use crate::plan::plan;
use crate::task::{CheckTask, Task};
use luau_tree::{Expr, ExprKind};
use std::alloc::AllocError;

/// What a target is made of stands before what is behind.
fn before_target<'t>(tasks: &mut Vec<Task<'t>>, e: &'t Expr) -> Result<(), AllocError>
    ensures { OnOk result (Puts tasks.old.items tasks.new.items (λ rules seen. listed.before_target rules seen (view_expr e.now)) (form_weight (view_expr e.now))) }
{
    match &e.kind {
        ExprKind::Index { base, .. } => plan(
            tasks,
            &[Task::Check(CheckTask::Before, Check::WrittenBase, base.get())],
        ),
        ExprKind::At { base, key } => plan(
            tasks,
            &[
                Task::Check(CheckTask::Before, Check::Unchecked, key.get()),
                Task::Check(CheckTask::Before, Check::WrittenBase, base.get()),
            ],
        ),
        _ => Ok(()),
    }
}

/// A target, with its reports, before what is behind.
pub fn target<'t>(tasks: &mut Vec<Task<'t>>, e: &'t Expr) -> Result<(), AllocError>
    ensures work { OnOk result ((rules : Rules) (seen : List Seen) (work : Work) → run rules seen tasks.new.items work ≡ run rules seen tasks.old.items (stated.with_target rules seen (view_expr e.now) work)) }
    ensures light { OnOk result (weights tasks.new.items < weights tasks.old.items + twice (expr_weight (view_expr e.now))) }
{
    plan(tasks, &[Task::Check(CheckTask::There, Check::Unchecked, e)])?;
    parts(tasks, Check::WrittenBase, e)?;
    before_target(tasks, e)
}
