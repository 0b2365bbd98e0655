//! Statements by their forms, blocks and bodies.
ghost use Rattle.std.specs.Prelude.{◌≡◌, ◌<◌, ◌+◌, List, OnOk};
ghost use Rattle.luau_tree.specs.View.{view_block, view_body, view_stat, view_stats};
ghost use Rattle.report_rules.specs.Rules.{Rules};
ghost use Rattle.report_rules.specs.Seen.{Seen};
ghost use Rattle.report_work.specs.Found.{with_body};
ghost use Rattle.report_work.specs.Statements as stated;
ghost use Rattle.report_work.specs.Statements.{with_block, with_stat};
ghost use Rattle.report_work.specs.Work.{Work};
ghost use Rattle.report_plan.specs.Puts.{Puts};
ghost use Rattle.report_plan.specs.Run.{run};
ghost use Rattle.report_plan.specs.Weights.{block_weight, body_weight, stat_form_weight, stat_weight, stats_weight, weights};

use crate::branches::if_stat;
use crate::compounds::compound;
use crate::plan::plan;
use crate::stats::{
    break_stat, call_stat, continue_stat, do_block, function_stat, iteration, local_function,
    numeric_for, repeat_loop, return_stat, while_loop,
};
use crate::task::{BehindStep, BodyTask, LoopStep, StatTask, Task};
use crate::writes::{assign, local_stat};
use luau_tree::{Block, Body, Stat, StatKind};
use std::alloc::AllocError;

/// A statement, by its form.
fn form<'t>(tasks: &mut Vec<Task<'t>>, s: &'t Stat) -> Result<(), AllocError>
    ensures { OnOk result (Puts tasks.old.items tasks.new.items (λ rules seen. with_stat rules seen (view_stat s.now)) (stat_form_weight (view_stat s.now))) }
{
    match &s.kind {
        StatKind::Assign { targets, values } => {
            assign(tasks, targets.as_slice(), values.as_slice())
        }
        StatKind::Compound { target, op, value } => compound(tasks, target, *op, value),
        StatKind::CallStat(call) => call_stat(tasks, call),
        StatKind::Do(body) => do_block(tasks, body),
        StatKind::While { cond, body } => while_loop(tasks, s, cond, body),
        StatKind::Repeat { body, cond } => repeat_loop(tasks, s, body, cond),
        StatKind::If { arms, last } => if_stat(tasks, arms.as_slice(), last),
        StatKind::NumFor {
            from,
            to,
            step,
            body,
            ..
        } => numeric_for(tasks, s, from, to, step, body),
        StatKind::GenFor { values, body, .. } => iteration(tasks, s, values.as_slice(), body),
        StatKind::Function { path, method, body } => function_stat(tasks, path, method, body),
        StatKind::LocalFunction { name, body } => local_function(tasks, name, body),
        StatKind::Local { binds, values } => local_stat(tasks, binds.as_slice(), values.as_slice()),
        StatKind::Return(values) => return_stat(tasks, values.as_slice()),
        StatKind::Break => break_stat(tasks),
        StatKind::Continue => continue_stat(tasks),
        StatKind::TypeAlias { .. } => Ok(()),
        StatKind::TypeFunction { .. } => Ok(()),
    }
}

/// A statement.
pub fn stat<'t>(tasks: &mut Vec<Task<'t>>, s: &'t Stat) -> Result<(), AllocError>
    ensures work { OnOk result ((rules : Rules) (seen : List Seen) (work : Work) → run rules seen tasks.new.items work ≡ run rules seen tasks.old.items (with_stat rules seen (view_stat s.now) work)) }
    ensures light { OnOk result (weights tasks.new.items < weights tasks.old.items + stat_weight (view_stat s.now)) }
{
    form(tasks, s)
}

/// Statements, of which the last is gone through first.
fn each_stat<'t>(tasks: &mut Vec<Task<'t>>, stats: &'t [Stat]) -> Result<(), AllocError>
    ensures { OnOk result (Puts tasks.old.items tasks.new.items (λ rules seen. stated.each_stat (with_stat rules seen) (view_stats stats.now)) (stats_weight (view_stats stats.now))) }
{
    for s in stats {
        tasks.push(Task::Stat(StatTask::Whole, s))?;
    }
    Ok(())
}

/// A block.
pub fn block<'t>(tasks: &mut Vec<Task<'t>>, block: &'t Block) -> Result<(), AllocError>
    ensures work { OnOk result ((rules : Rules) (seen : List Seen) (work : Work) → run rules seen tasks.new.items work ≡ run rules seen tasks.old.items (with_block rules seen (view_block block.now) work)) }
    ensures light { OnOk result (weights tasks.new.items < weights tasks.old.items + block_weight (view_block block.now)) }
{
    each_stat(tasks, block.stats.as_slice())
}

/// A function's body.
pub fn body<'t>(tasks: &mut Vec<Task<'t>>, body: &'t Body) -> Result<(), AllocError>
    ensures work { OnOk result ((rules : Rules) (seen : List Seen) (work : Work) → run rules seen tasks.new.items work ≡ run rules seen tasks.old.items (with_body rules seen (view_body body.now) work)) }
    ensures light { OnOk result (weights tasks.new.items < weights tasks.old.items + body_weight (view_body body.now)) }
{
    plan(
        tasks,
        &[
            Task::Loop(LoopStep::Apart),
            Task::Block(&body.block),
            Task::Body(BodyTask::Params, body),
            Task::Loop(LoopStep::Leave),
            Task::Behind(BehindStep::Restore),
        ],
    )
}
