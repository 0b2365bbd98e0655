//! The forms of statements, but for those that declare or assign.
ghost use Rattle.std.specs.Prelude.{◌≡◌, List, None, Some, ℕ, OnOk};
ghost use Rattle.luau_tree.specs.declared.position.Span.{Span};
ghost use Rattle.luau_tree.specs.Tree as plain;
ghost use Rattle.luau_tree.specs.View.{view_bind, view_block, view_body, view_expr, view_exprs, view_maybe_expr, view_stat};
ghost use Rattle.report_work.specs.Statements.{with_stat};
ghost use Rattle.report_plan.specs.Puts.{Puts};
ghost use Rattle.report_plan.specs.Weights.{stat_kind_weight};

use crate::check::Check;
use crate::lists::{each, each_iterated};
use crate::plan::plan;
use crate::task::{
    AnswerStep, AskStep, BaseTask, BehindStep, BodyTask, CheckTask, ExprTask, LoopStep, StatTask,
    Task,
};
use luau_tree::{Bind, Block, Body, Bytes, Expr, Stat};
use std::alloc::AllocError;

/// `do .. end`
pub(crate) fn do_block<'t>(tasks: &mut Vec<Task<'t>>, body: &'t Block) -> Result<(), AllocError>
    ensures { OnOk result ((span : Span) → Puts tasks.old.items tasks.new.items (λ rules seen. with_stat rules seen (plain.the_stat span (plain.Do (view_block body.now)))) (stat_kind_weight (plain.Do (view_block body.now)))) }
{
    plan(tasks, &[Task::Block(body)])
}

/// A call.
pub(crate) fn call_stat<'t>(tasks: &mut Vec<Task<'t>>, e: &'t Expr) -> Result<(), AllocError>
    ensures { OnOk result ((span : Span) → Puts tasks.old.items tasks.new.items (λ rules seen. with_stat rules seen (plain.the_stat span (plain.CallStat (view_expr e.now)))) (stat_kind_weight (plain.CallStat (view_expr e.now)))) }
{
    plan(
        tasks,
        &[Task::Check(CheckTask::Passed, Check::Unchecked, e)],
    )
}

/// `return x, y`
pub(crate) fn return_stat<'t>(
    tasks: &mut Vec<Task<'t>>,
    values: &'t [Expr],
) -> Result<(), AllocError>
    ensures { OnOk result ((span : Span) → Puts tasks.old.items tasks.new.items (λ rules seen. with_stat rules seen (plain.the_stat span (plain.Return (view_exprs values.now)))) (stat_kind_weight (plain.Return (view_exprs values.now)))) }
{
    each(tasks, CheckTask::Passed, values)?;
    plan(tasks, &[Task::Behind(BehindStep::Clear)])
}

/// `break`
pub(crate) fn break_stat(tasks: &mut Vec<Task<'_>>) -> Result<(), AllocError>
    ensures { OnOk result ((span : Span) → Puts tasks.old.items tasks.new.items (λ rules seen. with_stat rules seen (plain.the_stat span plain.Break)) (stat_kind_weight plain.Break)) }
{
    plan(tasks, &[Task::Loop(LoopStep::Break)])
}

/// `continue`
pub(crate) fn continue_stat(tasks: &mut Vec<Task<'_>>) -> Result<(), AllocError>
    ensures { OnOk result ((span : Span) → Puts tasks.old.items tasks.new.items (λ rules seen. with_stat rules seen (plain.the_stat span plain.Continue)) (stat_kind_weight plain.Continue)) }
{
    plan(tasks, &[Task::Loop(LoopStep::Continue)])
}

/// `while c do .. end`
pub(crate) fn while_loop<'t>(
    tasks: &mut Vec<Task<'t>>,
    s: &'t Stat,
    cond: &'t Expr,
    body: &'t Block,
) -> Result<(), AllocError>
    ensures { OnOk result ((span : Span) → view_stat s.now ≡ plain.the_stat span (plain.While (view_expr cond.now) (view_block body.now))
        → Puts tasks.old.items tasks.new.items (λ rules seen. with_stat rules seen (view_stat s.now)) (stat_kind_weight (plain.While (view_expr cond.now) (view_block body.now)))) }
{
    plan(
        tasks,
        &[
            Task::Behind(BehindStep::Keep),
            Task::Stat(StatTask::Keep, s),
            Task::Ask(AskStep::Never),
            Task::Expr(ExprTask::Whole, cond),
            Task::Answer(AnswerStep::Join),
            Task::Loop(LoopStep::Enter),
            Task::Block(body),
            Task::Loop(LoopStep::Continue),
            Task::Loop(LoopStep::Leave),
            Task::Check(CheckTask::Found, Check::Unchecked, cond),
        ],
    )
}

/// `repeat .. until c`
pub(crate) fn repeat_loop<'t>(
    tasks: &mut Vec<Task<'t>>,
    s: &'t Stat,
    body: &'t Block,
    cond: &'t Expr,
) -> Result<(), AllocError>
    ensures { OnOk result ((span : Span) → view_stat s.now ≡ plain.the_stat span (plain.Repeat (view_block body.now) (view_expr cond.now))
        → Puts tasks.old.items tasks.new.items (λ rules seen. with_stat rules seen (view_stat s.now)) (stat_kind_weight (plain.Repeat (view_block body.now) (view_expr cond.now)))) }
{
    plan(
        tasks,
        &[
            Task::Behind(BehindStep::Keep),
            Task::Stat(StatTask::Keep, s),
            Task::Check(CheckTask::Passed, Check::Unchecked, cond),
            Task::Loop(LoopStep::Enter),
            Task::Block(body),
            Task::Loop(LoopStep::Leave),
        ],
    )
}

/// `for i = a, b do .. end`
fn number_loop<'t>(
    tasks: &mut Vec<Task<'t>>,
    s: &'t Stat,
    from: &'t Expr,
    to: &'t Expr,
    body: &'t Block,
) -> Result<(), AllocError>
    ensures { OnOk result ((span : Span) (bind : plain.Bind) → view_stat s.now ≡ plain.the_stat span (plain.NumFor bind (view_expr from.now) (view_expr to.now) plain.no_expr (view_block body.now))
        → Puts tasks.old.items tasks.new.items (λ rules seen. with_stat rules seen (view_stat s.now)) (stat_kind_weight (plain.NumFor bind (view_expr from.now) (view_expr to.now) plain.no_expr (view_block body.now)))) }
{
    plan(
        tasks,
        &[
            Task::Behind(BehindStep::Keep),
            Task::Stat(StatTask::Keep, s),
            Task::Loop(LoopStep::Enter),
            Task::Block(body),
            Task::Loop(LoopStep::Continue),
            Task::Loop(LoopStep::Leave),
            Task::Check(CheckTask::Passed, Check::Bound, to),
            Task::Check(CheckTask::Passed, Check::Bound, from),
        ],
    )
}

/// `for i = a, b, c do .. end`
fn stepped_loop<'t>(
    tasks: &mut Vec<Task<'t>>,
    s: &'t Stat,
    from: &'t Expr,
    to: &'t Expr,
    by: &'t Expr,
    body: &'t Block,
) -> Result<(), AllocError>
    ensures { OnOk result ((span : Span) (bind : plain.Bind) → view_stat s.now ≡ plain.the_stat span (plain.NumFor bind (view_expr from.now) (view_expr to.now) (plain.an_expr (view_expr by.now)) (view_block body.now))
        → Puts tasks.old.items tasks.new.items (λ rules seen. with_stat rules seen (view_stat s.now)) (stat_kind_weight (plain.NumFor bind (view_expr from.now) (view_expr to.now) (plain.an_expr (view_expr by.now)) (view_block body.now)))) }
{
    plan(
        tasks,
        &[
            Task::Behind(BehindStep::Keep),
            Task::Stat(StatTask::Keep, s),
            Task::Loop(LoopStep::Enter),
            Task::Block(body),
            Task::Loop(LoopStep::Continue),
            Task::Loop(LoopStep::Leave),
            Task::Check(CheckTask::Passed, Check::Bound, by),
            Task::Check(CheckTask::Passed, Check::Bound, to),
            Task::Check(CheckTask::Passed, Check::Bound, from),
        ],
    )
}

/// A numeric `for`.
pub(crate) fn numeric_for<'t>(
    tasks: &mut Vec<Task<'t>>,
    s: &'t Stat,
    from: &'t Expr,
    to: &'t Expr,
    step: &'t Option<Expr>,
    body: &'t Block,
) -> Result<(), AllocError>
    ensures { OnOk result ((span : Span) (bind : plain.Bind) → view_stat s.now ≡ plain.the_stat span (plain.NumFor bind (view_expr from.now) (view_expr to.now) (view_maybe_expr step.now) (view_block body.now))
        → Puts tasks.old.items tasks.new.items (λ rules seen. with_stat rules seen (view_stat s.now)) (stat_kind_weight (plain.NumFor bind (view_expr from.now) (view_expr to.now) (view_maybe_expr step.now) (view_block body.now)))) }
{
    match step {
        None => number_loop(tasks, s, from, to, body),
        Some(by) => stepped_loop(tasks, s, from, to, by, body),
    }
}

/// `for a, b in x, y do .. end`
pub(crate) fn iteration<'t>(
    tasks: &mut Vec<Task<'t>>,
    s: &'t Stat,
    values: &'t [Expr],
    body: &'t Block,
) -> Result<(), AllocError>
    ensures { OnOk result ((span : Span) (binds : plain.Binds) → view_stat s.now ≡ plain.the_stat span (plain.GenFor binds (view_exprs values.now) (view_block body.now))
        → Puts tasks.old.items tasks.new.items (λ rules seen. with_stat rules seen (view_stat s.now)) (stat_kind_weight (plain.GenFor binds (view_exprs values.now) (view_block body.now)))) }
{
    each_iterated(tasks, values)?;
    plan(
        tasks,
        &[
            Task::Behind(BehindStep::Keep),
            Task::Stat(StatTask::Keep, s),
            Task::Loop(LoopStep::Enter),
            Task::Block(body),
            Task::Loop(LoopStep::Continue),
            Task::Loop(LoopStep::Leave),
        ],
    )
}

/// `function a.b() .. end`
fn plain_function<'t>(
    tasks: &mut Vec<Task<'t>>,
    path: &'t Expr,
    body: &'t Body,
) -> Result<(), AllocError>
    ensures { OnOk result ((span : Span) → Puts tasks.old.items tasks.new.items (λ rules seen. with_stat rules seen (plain.the_stat span (plain.FunctionStat (view_expr path.now) None (view_body body.now)))) (stat_kind_weight (plain.FunctionStat (view_expr path.now) None (view_body body.now)))) }
{
    plan(
        tasks,
        &[
            Task::Body(BodyTask::Whole, body),
            Task::Expr(ExprTask::Write, path),
            Task::Expr(ExprTask::Target, path),
        ],
    )
}

/// `function a.b:m() .. end`
fn method<'t>(
    tasks: &mut Vec<Task<'t>>,
    path: &'t Expr,
    name: &'t Bytes,
    body: &'t Body,
) -> Result<(), AllocError>
    ensures { OnOk result ((span : Span) → Puts tasks.old.items tasks.new.items (λ rules seen. with_stat rules seen (plain.the_stat span (plain.FunctionStat (view_expr path.now) (Some name.now) (view_body body.now)))) (stat_kind_weight (plain.FunctionStat (view_expr path.now) (Some name.now) (view_body body.now)))) }
{
    plan(
        tasks,
        &[
            Task::Body(BodyTask::Whole, body),
            Task::Base(BaseTask::Written(name), path),
            Task::Check(CheckTask::Passed, Check::WrittenBase, path),
        ],
    )
}

/// A function statement.
pub(crate) fn function_stat<'t>(
    tasks: &mut Vec<Task<'t>>,
    path: &'t Expr,
    name: &'t Option<Bytes>,
    body: &'t Body,
) -> Result<(), AllocError>
    ensures { OnOk result ((span : Span) → Puts tasks.old.items tasks.new.items (λ rules seen. with_stat rules seen (plain.the_stat span (plain.FunctionStat (view_expr path.now) name.now (view_body body.now)))) (stat_kind_weight (plain.FunctionStat (view_expr path.now) name.now (view_body body.now)))) }
{
    match name {
        None => plain_function(tasks, path, body),
        Some(name) => method(tasks, path, name, body),
    }
}

/// `local function f() .. end`
pub(crate) fn local_function<'t>(
    tasks: &mut Vec<Task<'t>>,
    name: &'t Bind,
    body: &'t Body,
) -> Result<(), AllocError>
    ensures { OnOk result ((span : Span) → Puts tasks.old.items tasks.new.items (λ rules seen. with_stat rules seen (plain.the_stat span (plain.LocalFunction (view_bind name.now) (view_body body.now)))) (stat_kind_weight (plain.LocalFunction (view_bind name.now) (view_body body.now)))) }
{
    plan(
        tasks,
        &[
            Task::Body(BodyTask::Whole, body),
            Task::Binds(std::slice::from_ref(name)),
        ],
    )
}
