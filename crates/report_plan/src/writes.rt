//! Declarations, assignments and their targets.
ghost use Rattle.std.specs.Prelude.{◌≡◌, List, OnOk, drop};
ghost use Rattle.luau_tree.specs.declared.position.Span.{Span};
ghost use Rattle.luau_tree.specs.Tree as plain;
ghost use Rattle.luau_tree.specs.View.{view_binds, view_exprs};
ghost use Rattle.report_rules.specs.Checks.{count};
ghost use Rattle.report_rules.specs.Effects.{targets_of};
ghost use Rattle.report_rules.specs.Rules.{Rules};
ghost use Rattle.report_rules.specs.Seen.{Seen};
ghost use Rattle.report_work.specs.Checks.{ValueFor};
ghost use Rattle.report_work.specs.Expressions as listed;
ghost use Rattle.report_work.specs.Statements as stated;
ghost use Rattle.report_work.specs.Work.{Work};
ghost use Rattle.report_plan.specs.Puts.{Puts};
ghost use Rattle.report_plan.specs.Run.{check_meant};
ghost use Rattle.report_plan.specs.Weights.{exprs_weight, stat_kind_weight, targets_weight, twice};

use crate::check::Check;
use crate::plan::plan;
use crate::task::{BehindStep, CheckTask, ExprTask, Task};
use luau_tree::{Bind, Expr};
use std::alloc::AllocError;

/// How the value at a position is checked: by the name that is declared there.
fn declared_check<'t>(binds: &'t [Bind], i: usize) -> Check<'t>
    ensures { (rules : Rules) (seen : List Seen) (e : plain.Expr) (work : Work) → stated.passed rules seen (check_meant rules result) e work
        ≡ stated.passed rules seen (ValueFor (stated.named_first (stated.named_of_binds rules (view_binds (drop i binds.now))))) e work }
{
    if i < binds.len() {
        Check::ValueOf(&binds[i])
    } else {
        Check::Unchecked
    }
}

/// Values of declared names.
fn each_declared<'t>(
    tasks: &mut Vec<Task<'t>>,
    binds: &'t [Bind],
    values: &'t [Expr],
) -> Result<(), AllocError>
    ensures { OnOk result (Puts tasks.old.items tasks.new.items (λ rules seen. stated.each_value rules seen (stated.named_of_binds rules (view_binds binds.now)) (view_exprs values.now)) (twice (exprs_weight (view_exprs values.now)))) }
{
    for i in 0..values.len() {
        let check = declared_check(binds, i);
        tasks.push(Task::Check(CheckTask::Passed, check, &values[i]))?;
    }
    Ok(())
}

/// `local a, b = x, y`
pub(crate) fn local_stat<'t>(
    tasks: &mut Vec<Task<'t>>,
    binds: &'t [Bind],
    values: &'t [Expr],
) -> Result<(), AllocError>
    ensures { OnOk result ((span : Span) → Puts tasks.old.items tasks.new.items (λ rules seen. stated.with_stat rules seen (plain.the_stat span (plain.Local (view_binds binds.now) (view_exprs values.now))))
        (stat_kind_weight (plain.Local (view_binds binds.now) (view_exprs values.now)))) }
{
    plan(tasks, &[Task::Behind(BehindStep::Drop)])?;
    each_declared(tasks, binds, values)?;
    plan(
        tasks,
        &[
            Task::Behind(BehindStep::Keep),
            Task::Values(values),
            Task::Binds(binds),
        ],
    )
}

/// How the value at a position is checked: by the target that stands there.
fn assigned_check<'t>(targets: &'t [Expr], i: usize) -> Check<'t>
    ensures { (rules : Rules) (seen : List Seen) (e : plain.Expr) (work : Work) → stated.passed rules seen (check_meant rules result) e work
        ≡ stated.passed rules seen (ValueFor (stated.named_first (stated.named_of_targets rules (view_exprs (drop i targets.now))))) e work }
{
    if i < targets.len() {
        Check::ValueOfTarget(&targets[i])
    } else {
        Check::Unchecked
    }
}

/// Values of targets.
fn each_assigned<'t>(
    tasks: &mut Vec<Task<'t>>,
    targets: &'t [Expr],
    values: &'t [Expr],
) -> Result<(), AllocError>
    ensures { OnOk result (Puts tasks.old.items tasks.new.items (λ rules seen. stated.each_value rules seen (stated.named_of_targets rules (view_exprs targets.now)) (view_exprs values.now)) (twice (exprs_weight (view_exprs values.now)))) }
{
    for i in 0..values.len() {
        let check = assigned_check(targets, i);
        tasks.push(Task::Check(CheckTask::Passed, check, &values[i]))?;
    }
    Ok(())
}

/// Targets, with their reports.
fn each_target<'t>(tasks: &mut Vec<Task<'t>>, targets: &'t [Expr]) -> Result<(), AllocError>
    ensures { OnOk result (Puts tasks.old.items tasks.new.items (λ rules seen. listed.each (stated.with_target rules seen) (view_exprs targets.now)) (targets_weight (view_exprs targets.now))) }
{
    for target in targets {
        tasks.push(Task::Expr(ExprTask::Target, target))?;
    }
    Ok(())
}

/// Writes, of which the first is done first.
fn each_written<'t>(tasks: &mut Vec<Task<'t>>, targets: &'t [Expr]) -> Result<(), AllocError>
    ensures { OnOk result (Puts tasks.old.items tasks.new.items (λ rules seen. stated.each_written (targets_of rules (view_exprs targets.now))) (count (view_exprs targets.now))) }
{
    for i in (0..targets.len()).rev() {
        tasks.push(Task::Expr(ExprTask::Write, &targets[i]))?;
    }
    Ok(())
}

/// What writes leave of the context that checks values.
fn each_kept<'t>(tasks: &mut Vec<Task<'t>>, targets: &'t [Expr]) -> Result<(), AllocError>
    ensures { OnOk result (Puts tasks.old.items tasks.new.items (λ rules seen. stated.each_kept (targets_of rules (view_exprs targets.now))) (count (view_exprs targets.now))) }
{
    for i in (0..targets.len()).rev() {
        tasks.push(Task::Expr(ExprTask::KeepFor, &targets[i]))?;
    }
    Ok(())
}

/// `a, b.c = x, y`
pub(crate) fn assign<'t>(
    tasks: &mut Vec<Task<'t>>,
    targets: &'t [Expr],
    values: &'t [Expr],
) -> Result<(), AllocError>
    ensures { OnOk result ((span : Span) → Puts tasks.old.items tasks.new.items (λ rules seen. stated.with_stat rules seen (plain.the_stat span (plain.Assign (view_exprs targets.now) (view_exprs values.now))))
        (stat_kind_weight (plain.Assign (view_exprs targets.now) (view_exprs values.now)))) }
{
    each_target(tasks, targets)?;
    plan(tasks, &[Task::Behind(BehindStep::Drop)])?;
    each_assigned(tasks, targets, values)?;
    each_written(tasks, targets)?;
    plan(tasks, &[Task::Values(values)])?;
    each_kept(tasks, targets)?;
    plan(tasks, &[Task::Behind(BehindStep::Keep)])
}
