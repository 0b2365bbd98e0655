//! Lists of parts. What comes last in the text is done first.
ghost use Rattle.std.specs.Prelude.{◌≡◌, ◌<◌, ◌+◌, OnOk, drop, get_or, length};
ghost use Rattle.luau_tree.specs.declared.tree.Expr.{Expr as AnExpr};
ghost use Rattle.report_rules.specs.Errors.{expands_as};
ghost use Rattle.luau_tree.specs.View.{view_expr, view_exprs};
ghost use Rattle.report_work.specs.Checks.{Unchecked};
ghost use Rattle.report_work.specs.Expressions as listed;
ghost use Rattle.report_work.specs.Statements as stated;
ghost use Rattle.report_plan.specs.Run.{checked};
ghost use Rattle.report_plan.specs.Puts.{Puts};
ghost use Rattle.report_plan.specs.Weights.{checked_loads, exprs_weight, twice};

use crate::check::Check;
use crate::task::{CheckTask, Task};
use luau_tree::Expr;
use module_facts::expands;
use std::alloc::AllocError;

/// Expressions that are not checked.
pub(crate) fn each<'t>(
    tasks: &mut Vec<Task<'t>>,
    way: CheckTask,
    es: &'t [Expr],
) -> Result<(), AllocError>
    ensures { OnOk result (Puts tasks.old.items tasks.new.items (λ rules seen. listed.each (checked rules seen way Unchecked) (view_exprs es.now)) (checked_loads way (view_exprs es.now))) }
{
    for e in es {
        tasks.push(Task::Check(way, Check::Unchecked, e))?;
    }
    Ok(())
}

/// Whether the argument at a position expands: the last one may.
fn expands_at(args: &[Expr], i: usize) -> bool
    requires { i < length args.now }
    ensures { (none : AnExpr) → result ≡ expands_as (view_expr (get_or args.now i none)) (view_exprs (drop (i + 1) args.now)) }
{
    i + 1 == args.len() && expands(&args[i])
}

/// The arguments of a call.
pub(crate) fn each_arg<'t>(
    tasks: &mut Vec<Task<'t>>,
    way: CheckTask,
    callee: &'t Expr,
    args: &'t [Expr],
) -> Result<(), AllocError>
    ensures { OnOk result (Puts tasks.old.items tasks.new.items (λ rules seen. listed.each_arg (checked rules seen way) (view_expr callee.now) 0 (view_exprs args.now)) (checked_loads way (view_exprs args.now))) }
{
    for i in 0..args.len() {
        let check = Check::Argument {
            callee,
            position: i,
            expanding: expands_at(args, i),
        };
        tasks.push(Task::Check(way, check, &args[i]))?;
    }
    Ok(())
}

/// The values of a generic `for`, of which the first is gone over.
pub(crate) fn each_iterated<'t>(
    tasks: &mut Vec<Task<'t>>,
    values: &'t [Expr],
) -> Result<(), AllocError>
    ensures { OnOk result (Puts tasks.old.items tasks.new.items (λ rules seen. stated.each_iterated rules seen (view_exprs values.now)) (twice (exprs_weight (view_exprs values.now)))) }
{
    match values.split_first() {
        None => Ok(()),
        Some((first, rest)) => {
            tasks.push(Task::Check(CheckTask::Passed, Check::Iterated, first))?;
            each(tasks, CheckTask::Passed, rest)
        }
    }
}
