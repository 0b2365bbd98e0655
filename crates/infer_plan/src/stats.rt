//! The forms of statements, but for those that declare or assign.
ghost use Rattle.std.specs.Prelude.{Bool, ◌≡◌, ◌≤◌, ◌+◌, ℕ, List, OnOk, None, Some};
ghost use Rattle.luau_tree.specs.declared.position.Span.{Span};
ghost use Rattle.luau_tree.specs.Tree as plain;
ghost use Rattle.luau_tree.specs.View.{view_bind, view_binds, view_block, view_body, view_expr, view_exprs, view_maybe_expr, view_stat};
ghost use Rattle.report_rules.specs.Rules.{Rules};
ghost use Rattle.report_rules.specs.Effects.{target_of, function_target};
ghost use Rattle.module_facts.specs.Targets.{target_meant};
ghost use Rattle.rule_work.specs.Work.{Work};
ghost use Rattle.infer_plan.specs.Run.{run};
ghost use Rattle.infer_plan.specs.Steps.{with_stat, with_body};
ghost use Rattle.infer_plan.specs.Weights.{block_weight, body_weight, expr_weight, list_weight, stat_kind_weight, weights};

use crate::plan::plan;
use crate::task::{BodyTask, ExprTask, ListTask, StatTask, Step, Task, WriteTask};
use luau_tree::{BinOp, Bind, Block, Body, Bytes, Expr, Stat};
use module_facts::Target;
use std::alloc::AllocError;
use type_fields::Plain;

/// `do .. end`
pub(crate) fn do_block<'t>(tasks: &mut Vec<Task<'t>>, body: &'t Block) -> Result<(), AllocError>
    ensures work { OnOk result ((rules : Rules) (span : Span) (work : Work) → run rules tasks.new.items work
        ≡ run rules tasks.old.items (with_stat rules (plain.the_stat span (plain.Do (view_block body.now))) work)) }
    ensures light { OnOk result (weights tasks.new.items ≤ weights tasks.old.items + stat_kind_weight (plain.Do (view_block body.now))) }
{
    plan(tasks, &[Task::Block(body)])
}

/// A call.
pub(crate) fn call_stat<'t>(tasks: &mut Vec<Task<'t>>, e: &'t Expr) -> Result<(), AllocError>
    ensures work { OnOk result ((rules : Rules) (span : Span) (work : Work) → run rules tasks.new.items work
        ≡ run rules tasks.old.items (with_stat rules (plain.the_stat span (plain.CallStat (view_expr e.now))) work)) }
    ensures light { OnOk result (weights tasks.new.items ≤ weights tasks.old.items + stat_kind_weight (plain.CallStat (view_expr e.now))) }
{
    plan(
        tasks,
        &[
            Task::Expr(ExprTask::Whole, e),
            Task::Step(Step::Plain(Plain::Never)),
        ],
    )
}

/// `while c do .. end`
pub(crate) fn while_loop<'t>(
    tasks: &mut Vec<Task<'t>>,
    s: &'t Stat,
    cond: &'t Expr,
    body: &'t Block,
) -> Result<(), AllocError>
    ensures work { OnOk result ((rules : Rules) (span : Span) (work : Work) → view_stat s.now ≡ plain.the_stat span (plain.While (view_expr cond.now) (view_block body.now))
        → run rules tasks.new.items work ≡ run rules tasks.old.items (with_stat rules (view_stat s.now) work)) }
    ensures light { OnOk result (weights tasks.new.items ≤ weights tasks.old.items + stat_kind_weight (plain.While (view_expr cond.now) (view_block body.now))) }
{
    plan(
        tasks,
        &[
            Task::Stat(StatTask::Head, s),
            Task::Step(Step::Save),
            Task::Expr(ExprTask::Whole, cond),
            Task::Expr(ExprTask::WhenTrue, cond),
            Task::Block(body),
            Task::Step(Step::Restore),
        ],
    )
}

/// `repeat .. until c`
pub(crate) fn repeat_loop<'t>(
    tasks: &mut Vec<Task<'t>>,
    s: &'t Stat,
    body: &'t Block,
    cond: &'t Expr,
) -> Result<(), AllocError>
    ensures work { OnOk result ((rules : Rules) (span : Span) (work : Work) → view_stat s.now ≡ plain.the_stat span (plain.Repeat (view_block body.now) (view_expr cond.now))
        → run rules tasks.new.items work ≡ run rules tasks.old.items (with_stat rules (view_stat s.now) work)) }
    ensures light { OnOk result (weights tasks.new.items ≤ weights tasks.old.items + stat_kind_weight (plain.Repeat (view_block body.now) (view_expr cond.now))) }
{
    plan(
        tasks,
        &[
            Task::Stat(StatTask::Head, s),
            Task::Step(Step::Save),
            Task::Block(body),
            Task::Step(Step::Restore),
            Task::Step(Step::Save),
            Task::Step(Step::Hold),
            Task::Expr(ExprTask::Whole, cond),
            Task::Step(Step::Take),
            Task::Step(Step::Restore),
        ],
    )
}

/// `for i = a, b do .. end`
fn number_loop<'t>(
    tasks: &mut Vec<Task<'t>>,
    s: &'t Stat,
    bind: &'t Bind,
    from: &'t Expr,
    to: &'t Expr,
    body: &'t Block,
) -> Result<(), AllocError>
    ensures work { OnOk result ((rules : Rules) (span : Span) (work : Work) → view_stat s.now ≡ plain.the_stat span (plain.NumFor (view_bind bind.now) (view_expr from.now) (view_expr to.now) plain.no_expr (view_block body.now))
        → run rules tasks.new.items work ≡ run rules tasks.old.items (with_stat rules (view_stat s.now) work)) }
    ensures light { OnOk result (weights tasks.new.items ≤ weights tasks.old.items + stat_kind_weight (plain.NumFor (view_bind bind.now) (view_expr from.now) (view_expr to.now) plain.no_expr (view_block body.now))) }
{
    plan(
        tasks,
        &[
            Task::Expr(ExprTask::Whole, from),
            Task::Expr(ExprTask::Whole, to),
            Task::Stat(StatTask::Head, s),
            Task::Step(Step::Save),
            Task::Step(Step::Plain(Plain::Number)),
            Task::Set(bind),
            Task::Block(body),
            Task::Step(Step::Restore),
        ],
    )
}

/// `for i = a, b, c do .. end`
fn stepped_loop<'t>(
    tasks: &mut Vec<Task<'t>>,
    s: &'t Stat,
    bind: &'t Bind,
    from: &'t Expr,
    to: &'t Expr,
    by: &'t Expr,
    body: &'t Block,
) -> Result<(), AllocError>
    ensures work { OnOk result ((rules : Rules) (span : Span) (work : Work) → view_stat s.now ≡ plain.the_stat span (plain.NumFor (view_bind bind.now) (view_expr from.now) (view_expr to.now) (plain.an_expr (view_expr by.now)) (view_block body.now))
        → run rules tasks.new.items work ≡ run rules tasks.old.items (with_stat rules (view_stat s.now) work)) }
    ensures light { OnOk result (weights tasks.new.items ≤ weights tasks.old.items + stat_kind_weight (plain.NumFor (view_bind bind.now) (view_expr from.now) (view_expr to.now) (plain.an_expr (view_expr by.now)) (view_block body.now))) }
{
    plan(
        tasks,
        &[
            Task::Expr(ExprTask::Whole, from),
            Task::Expr(ExprTask::Whole, to),
            Task::Expr(ExprTask::Whole, by),
            Task::Stat(StatTask::Head, s),
            Task::Step(Step::Save),
            Task::Step(Step::Plain(Plain::Number)),
            Task::Set(bind),
            Task::Block(body),
            Task::Step(Step::Restore),
        ],
    )
}

/// `for i = a, b do .. end`, with a step or without.
pub(crate) fn numeric_loop<'t>(
    tasks: &mut Vec<Task<'t>>,
    s: &'t Stat,
    bind: &'t Bind,
    from: &'t Expr,
    to: &'t Expr,
    step: &'t Option<Expr>,
    body: &'t Block,
) -> Result<(), AllocError>
    ensures work { OnOk result ((rules : Rules) (span : Span) (work : Work) → view_stat s.now ≡ plain.the_stat span (plain.NumFor (view_bind bind.now) (view_expr from.now) (view_expr to.now) (view_maybe_expr step.now) (view_block body.now))
        → run rules tasks.new.items work ≡ run rules tasks.old.items (with_stat rules (view_stat s.now) work)) }
    ensures light { OnOk result (weights tasks.new.items ≤ weights tasks.old.items + stat_kind_weight (plain.NumFor (view_bind bind.now) (view_expr from.now) (view_expr to.now) (view_maybe_expr step.now) (view_block body.now))) }
{
    match step {
        None => number_loop(tasks, s, bind, from, to, body),
        Some(by) => stepped_loop(tasks, s, bind, from, to, by, body),
    }
}

/// `for a, b in x, y do .. end`
pub(crate) fn iteration<'t>(
    tasks: &mut Vec<Task<'t>>,
    s: &'t Stat,
    values: &'t [Expr],
    body: &'t Block,
) -> Result<(), AllocError>
    ensures work { OnOk result ((rules : Rules) (span : Span) (binds : plain.Binds) (work : Work) → view_stat s.now ≡ plain.the_stat span (plain.GenFor binds (view_exprs values.now) (view_block body.now))
        → run rules tasks.new.items work ≡ run rules tasks.old.items (with_stat rules (view_stat s.now) work)) }
    ensures light { OnOk result (weights tasks.new.items ≤ weights tasks.old.items + (4 + (list_weight (view_exprs values.now) + block_weight (view_block body.now)))) }
{
    plan(
        tasks,
        &[
            Task::Exprs(ListTask::Values, values),
            Task::Step(Step::EndList),
            Task::Stat(StatTask::Head, s),
            Task::Step(Step::Save),
            Task::Block(body),
            Task::Step(Step::Restore),
        ],
    )
}

/// `a += x`, which writes a target.
pub(crate) fn compound<'t>(
    tasks: &mut Vec<Task<'t>>,
    target: &'t Expr,
    written: Target<'t>,
    op: BinOp,
    e: &'t Expr,
) -> Result<(), AllocError>
    ensures work { OnOk result ((rules : Rules) (span : Span) (work : Work) → target_meant written.entry ≡ target_of rules (view_expr target.now)
        → run rules tasks.new.items work ≡ run rules tasks.old.items (with_stat rules (plain.the_stat span (plain.Compound (view_expr target.now) op (view_expr e.now))) work)) }
    ensures light { OnOk result (weights tasks.new.items ≤ weights tasks.old.items + stat_kind_weight (plain.Compound (view_expr target.now) op (view_expr e.now))) }
{
    plan(
        tasks,
        &[
            Task::Expr(ExprTask::Target, target),
            Task::Step(Step::Hold),
            Task::Expr(ExprTask::Whole, e),
            Task::Step(Step::Binary(op)),
            Task::Write(WriteTask::Write, written),
            Task::Step(Step::Plain(Plain::Never)),
        ],
    )
}

/// `function a.b() .. end`, which writes a target.
fn function_stat<'t>(
    tasks: &mut Vec<Task<'t>>,
    path: &'t Expr,
    written: Target<'t>,
    body: &'t Body,
) -> Result<(), AllocError>
    ensures work { OnOk result ((rules : Rules) (span : Span) (work : Work) → target_meant written.entry ≡ function_target rules (view_expr path.now) None
        → run rules tasks.new.items work ≡ run rules tasks.old.items (with_stat rules (plain.the_stat span (plain.FunctionStat (view_expr path.now) None (view_body body.now))) work)) }
    ensures light { OnOk result (weights tasks.new.items ≤ weights tasks.old.items + (3 + (expr_weight (view_expr path.now) + body_weight (view_body body.now)))) }
{
    plan(
        tasks,
        &[
            Task::Expr(ExprTask::Target, path),
            Task::Body(BodyTask::Whole, body),
            Task::Body(BodyTask::Literal, body),
            Task::Write(WriteTask::Write, written),
            Task::Step(Step::Plain(Plain::Never)),
        ],
    )
}

/// `function a.b:m() .. end`, which writes a target.
fn method_stat<'t>(
    tasks: &mut Vec<Task<'t>>,
    path: &'t Expr,
    written: Target<'t>,
    body: &'t Body,
) -> Result<(), AllocError>
    ensures work { OnOk result ((rules : Rules) (span : Span) (name : List ℕ) (work : Work) → target_meant written.entry ≡ function_target rules (view_expr path.now) (Some name)
        → run rules tasks.new.items work ≡ run rules tasks.old.items (with_stat rules (plain.the_stat span (plain.FunctionStat (view_expr path.now) (Some name) (view_body body.now))) work)) }
    ensures light { OnOk result (weights tasks.new.items ≤ weights tasks.old.items + (3 + (expr_weight (view_expr path.now) + body_weight (view_body body.now)))) }
{
    plan(
        tasks,
        &[
            Task::Expr(ExprTask::Whole, path),
            Task::Body(BodyTask::Whole, body),
            Task::Body(BodyTask::Literal, body),
            Task::Write(WriteTask::Write, written),
            Task::Step(Step::Plain(Plain::Never)),
        ],
    )
}

/// `function a.b() .. end`, or `function a.b:m() .. end`, which writes a target.
pub(crate) fn function_or_method<'t>(
    tasks: &mut Vec<Task<'t>>,
    path: &'t Expr,
    written: Target<'t>,
    method: &'t Option<Bytes>,
    body: &'t Body,
) -> Result<(), AllocError>
    ensures work { OnOk result ((rules : Rules) (span : Span) (work : Work) → target_meant written.entry ≡ function_target rules (view_expr path.now) method.now
        → run rules tasks.new.items work ≡ run rules tasks.old.items (with_stat rules (plain.the_stat span (plain.FunctionStat (view_expr path.now) method.now (view_body body.now))) work)) }
    ensures light { OnOk result (weights tasks.new.items ≤ weights tasks.old.items + (3 + (expr_weight (view_expr path.now) + body_weight (view_body body.now)))) }
{
    match method {
        None => function_stat(tasks, path, written, body),
        Some(_) => method_stat(tasks, path, written, body),
    }
}

/// `local function f() .. end`
pub(crate) fn local_function<'t>(
    tasks: &mut Vec<Task<'t>>,
    name: &'t Bind,
    body: &'t Body,
) -> Result<(), AllocError>
    ensures work { OnOk result ((rules : Rules) (span : Span) (work : Work) → run rules tasks.new.items work
        ≡ run rules tasks.old.items (with_stat rules (plain.the_stat span (plain.LocalFunction (view_bind name.now) (view_body body.now))) work)) }
    ensures light { OnOk result (weights tasks.new.items ≤ weights tasks.old.items + stat_kind_weight (plain.LocalFunction (view_bind name.now) (view_body body.now))) }
{
    plan(
        tasks,
        &[
            Task::Body(BodyTask::Literal, body),
            Task::Set(name),
            Task::Body(BodyTask::Whole, body),
            Task::Step(Step::Plain(Plain::Never)),
        ],
    )
}

/// `return x, y`
pub(crate) fn return_stat<'t>(
    tasks: &mut Vec<Task<'t>>,
    values: &'t [Expr],
) -> Result<(), AllocError>
    ensures work { OnOk result ((rules : Rules) (span : Span) (work : Work) → run rules tasks.new.items work
        ≡ run rules tasks.old.items (with_stat rules (plain.the_stat span (plain.Return (view_exprs values.now))) work)) }
    ensures light { OnOk result (weights tasks.new.items ≤ weights tasks.old.items + stat_kind_weight (plain.Return (view_exprs values.now))) }
{
    plan(
        tasks,
        &[
            Task::Exprs(ListTask::Values, values),
            Task::Step(Step::TakeFirst(false)),
            Task::Step(Step::EndList),
            Task::Step(Step::LiveOnly),
            Task::Step(Step::End),
        ],
    )
}

/// `break` or `continue`
pub(crate) fn leaving<'t>(tasks: &mut Vec<Task<'t>>) -> Result<(), AllocError>
    ensures breaks { OnOk result ((rules : Rules) (span : Span) (work : Work) → run rules tasks.new.items work
        ≡ run rules tasks.old.items (with_stat rules (plain.the_stat span plain.Break) work)) }
    ensures continues { OnOk result ((rules : Rules) (span : Span) (work : Work) → run rules tasks.new.items work
        ≡ run rules tasks.old.items (with_stat rules (plain.the_stat span plain.Continue) work)) }
    ensures light { OnOk result (weights tasks.new.items ≤ weights tasks.old.items + 2) }
{
    plan(
        tasks,
        &[Task::Step(Step::Plain(Plain::Never)), Task::Step(Step::End)],
    )
}

/// A declaration of a type, which no run comes to.
pub(crate) fn type_stat<'t>(tasks: &mut Vec<Task<'t>>) -> Result<(), AllocError>
    ensures alias { OnOk result ((rules : Rules) (span : Span) (exported : Bool) (name : List ℕ) (generics : plain.Gens) (syntax : plain.TypeSyntax) (work : Work) → run rules tasks.new.items work
        ≡ run rules tasks.old.items (with_stat rules (plain.the_stat span (plain.TypeAlias exported name generics syntax)) work)) }
    ensures function { OnOk result ((rules : Rules) (span : Span) (exported : Bool) (name : List ℕ) (body : plain.Body) (work : Work) → run rules tasks.new.items work
        ≡ run rules tasks.old.items (with_stat rules (plain.the_stat span (plain.TypeFunction exported name body)) work)) }
    ensures light { OnOk result (weights tasks.new.items ≤ weights tasks.old.items + 2) }
{
    plan(tasks, &[Task::Step(Step::Plain(Plain::Never))])
}
