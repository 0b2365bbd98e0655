//! Compounds and their targets.
ghost use Rattle.std.specs.Prelude.{◌≡◌, ◌+◌, ℕ, OnOk};
ghost use Rattle.luau_tree.specs.declared.position.Span.{Span};
ghost use Rattle.luau_tree.specs.Tree as plain;
ghost use Rattle.luau_tree.specs.View.{view_expr};
ghost use Rattle.report_rules.specs.Effects.{effects};
ghost use Rattle.report_work.specs.Checks.{OldOf};
ghost use Rattle.report_work.specs.Expressions as listed;
ghost use Rattle.report_work.specs.Moves.{met};
ghost use Rattle.report_work.specs.Statements as stated;
ghost use Rattle.report_plan.specs.Puts.{Puts};
ghost use Rattle.report_plan.specs.Weights.{expr_weight, form_weight, stat_kind_weight};

use crate::check::Check;
use crate::exprs::name_of_key;
use crate::forms::parts;
use crate::plan::plan;
use crate::task::{AnswerStep, AskStep, BaseTask, CheckTask, ExprTask, Task};
use luau_tree::{BinOp, Bytes, Expr, ExprKind};
use std::alloc::AllocError;

/// The base of a field that a compound changes, by what the operation leaves of the field's set.
fn field_changed<'t>(
    tasks: &mut Vec<Task<'t>>,
    op: BinOp,
    added: &'t Expr,
    e: &'t Expr,
    base: &'t Expr,
    name: &'t Bytes,
) -> Result<(), AllocError>
    ensures { OnOk result (Puts tasks.old.items tasks.new.items
        (λ rules seen work. met (effects rules (view_expr base.now)) (listed.with_ev rules seen (view_expr base.now) (listed.asked_changed seen (view_expr base.now) name.now (listed.asked_as rules seen (OldOf op (view_expr added.now)) (view_expr e.now) work))))
        (3 + expr_weight (view_expr base.now))) }
{
    plan(
        tasks,
        &[
            Task::Check(CheckTask::Ask, Check::Old { op, added }, e),
            Task::Base(BaseTask::Changed(name), base),
            Task::Expr(ExprTask::Whole, base),
            Task::Expr(ExprTask::Met, base),
        ],
    )
}

/// `base[key]` as the target of a compound.
fn element<'t>(
    tasks: &mut Vec<Task<'t>>,
    op: BinOp,
    added: &'t Expr,
    e: &'t Expr,
    base: &'t Expr,
    key: &'t Expr,
) -> Result<(), AllocError>
    ensures { OnOk result ((id : ℕ) (span : Span) → view_expr e.now ≡ plain.the_expr id span (plain.At (view_expr base.now) (view_expr key.now))
        → Puts tasks.old.items tasks.new.items (λ rules seen. listed.before_compound rules seen op (view_expr added.now) (view_expr e.now)) (2 + form_weight (view_expr e.now))) }
{
    match name_of_key(key) {
        Some(name) => field_changed(tasks, op, added, e, base, name),
        None => plan(
            tasks,
            &[
                Task::Check(CheckTask::Before, Check::Unchecked, key),
                Task::Base(BaseTask::ChangedElement, base),
                Task::Expr(ExprTask::Whole, base),
                Task::Expr(ExprTask::Met, base),
            ],
        ),
    }
}

/// What the target of a compound is stands before what is behind.
fn before_compound<'t>(
    tasks: &mut Vec<Task<'t>>,
    op: BinOp,
    added: &'t Expr,
    e: &'t Expr,
) -> Result<(), AllocError>
    ensures { OnOk result (Puts tasks.old.items tasks.new.items (λ rules seen. listed.before_compound rules seen op (view_expr added.now) (view_expr e.now)) (2 + form_weight (view_expr e.now))) }
{
    match &e.kind {
        ExprKind::Index { base, name } => field_changed(tasks, op, added, e, base.get(), name),
        ExprKind::At { base, key } => element(tasks, op, added, e, base.get(), key.get()),
        ExprKind::Name(_) => plan(
            tasks,
            &[
                Task::Check(CheckTask::Ask, Check::Old { op, added }, e),
                Task::Expr(ExprTask::Name, e),
                Task::Answer(AnswerStep::Join),
            ],
        ),
        _ => plan(
            tasks,
            &[
                Task::Ask(AskStep::Never),
                Task::Answer(AnswerStep::Unfailing),
                Task::Answer(AnswerStep::Join),
            ],
        ),
    }
}

/// The target of a compound, with its reports, before what is behind.
fn compound_target<'t>(
    tasks: &mut Vec<Task<'t>>,
    op: BinOp,
    added: &'t Expr,
    e: &'t Expr,
) -> Result<(), AllocError>
    ensures { OnOk result (Puts tasks.old.items tasks.new.items (λ rules seen. stated.with_compound rules seen op (view_expr added.now) (view_expr e.now)) (3 + (form_weight (view_expr e.now) + form_weight (view_expr e.now)))) }
{
    plan(
        tasks,
        &[Task::Check(CheckTask::There, Check::Old { op, added }, e)],
    )?;
    parts(tasks, Check::ChangedBase, e)?;
    before_compound(tasks, op, added, e)
}

/// `a += x`
pub(crate) fn compound<'t>(
    tasks: &mut Vec<Task<'t>>,
    target: &'t Expr,
    op: BinOp,
    e: &'t Expr,
) -> Result<(), AllocError>
    ensures { OnOk result ((span : Span) → Puts tasks.old.items tasks.new.items (λ rules seen. stated.with_stat rules seen (plain.the_stat span (plain.Compound (view_expr target.now) op (view_expr e.now))))
        (stat_kind_weight (plain.Compound (view_expr target.now) op (view_expr e.now)))) }
{
    compound_target(tasks, op, e, target)?;
    plan(
        tasks,
        &[
            Task::Expr(ExprTask::Write, target),
            Task::Check(CheckTask::Passed, Check::Added { op, target }, e),
        ],
    )
}
