//! The contexts of expressions, by their forms.
ghost use Rattle.std.specs.Prelude.{◌≡◌, ℕ, List, None, OnOk};
ghost use Rattle.std.specs.Option.{option_copied};
ghost use Rattle.luau_tree.specs.declared.position.Span.{Span};
ghost use Rattle.luau_tree.specs.declared.names.BinOp.TheVariants.{And, Or};
ghost use Rattle.luau_tree.specs.Tree as plain;
ghost use Rattle.luau_tree.specs.View.{view_expr, view_exprs};
ghost use Rattle.report_work.specs.Expressions.{with_ev_kind};
ghost use Rattle.report_plan.specs.Keys.{key_name};
ghost use Rattle.report_plan.specs.Puts.{Puts};
ghost use Rattle.report_plan.specs.Weights.{kind_weight};

use crate::check::Check;
use crate::lists::{each, each_arg};
use crate::plan::plan;
use crate::task::{AnswerStep, AskStep, BaseTask, BehindStep, CheckTask, ExprTask, Task};
use luau_tree::{BinOp, Bytes, Expr, ExprKind, UnOp};
use std::alloc::AllocError;

/// `(e)`, or `e :: T`.
pub(crate) fn inner<'t>(tasks: &mut Vec<Task<'t>>, e: &'t Expr) -> Result<(), AllocError>
    ensures paren { OnOk result ((id : ℕ) → Puts tasks.old.items tasks.new.items (λ rules seen. with_ev_kind rules seen id (plain.Paren (view_expr e.now))) (kind_weight (plain.Paren (view_expr e.now)))) }
    ensures assert { OnOk result ((id : ℕ) (syntax : plain.TypeSyntax) → Puts tasks.old.items tasks.new.items (λ rules seen. with_ev_kind rules seen id (plain.Assert (view_expr e.now) syntax)) (kind_weight (plain.Assert (view_expr e.now) syntax))) }
{
    plan(tasks, &[Task::Expr(ExprTask::Whole, e)])
}

/// `base.name`
pub(crate) fn index<'t>(
    tasks: &mut Vec<Task<'t>>,
    base: &'t Expr,
    name: &'t Bytes,
) -> Result<(), AllocError>
    ensures { OnOk result ((id : ℕ) → Puts tasks.old.items tasks.new.items (λ rules seen. with_ev_kind rules seen id (plain.Index (view_expr base.now) name.now)) (kind_weight (plain.Index (view_expr base.now) name.now))) }
{
    plan(
        tasks,
        &[
            Task::Base(BaseTask::Read(name), base),
            Task::Expr(ExprTask::Whole, base),
        ],
    )
}

/// The name that a key is written as.
#[tactic(auto, unfolding(luau_tree::specs::View::view_expr))]
pub(crate) fn name_of_key(key: &Expr) -> Option<&Bytes>
    ensures { option_copied result ≡ key_name (view_expr key.now) }
{
    match &key.kind {
        ExprKind::Str(name) => Some(name),
        _ => None,
    }
}

/// `base[key]`
pub(crate) fn at<'t>(
    tasks: &mut Vec<Task<'t>>,
    base: &'t Expr,
    key: &'t Expr,
) -> Result<(), AllocError>
    ensures { OnOk result ((id : ℕ) → Puts tasks.old.items tasks.new.items (λ rules seen. with_ev_kind rules seen id (plain.At (view_expr base.now) (view_expr key.now))) (kind_weight (plain.At (view_expr base.now) (view_expr key.now)))) }
{
    match name_of_key(key) {
        Some(name) => plan(
            tasks,
            &[
                Task::Base(BaseTask::Read(name), base),
                Task::Expr(ExprTask::Whole, base),
            ],
        ),
        None => plan(
            tasks,
            &[
                Task::Behind(BehindStep::Begin),
                Task::Ask(AskStep::Never),
                Task::Expr(ExprTask::Whole, key),
                Task::Answer(AnswerStep::Start),
                Task::Check(CheckTask::Before, Check::Base, base),
                Task::Answer(AnswerStep::Spread),
                Task::Behind(BehindStep::Restore),
            ],
        ),
    }
}

/// `callee(args)`
pub(crate) fn call<'t>(
    tasks: &mut Vec<Task<'t>>,
    callee: &'t Expr,
    args: &'t [Expr],
) -> Result<(), AllocError>
    ensures { OnOk result ((id : ℕ) → Puts tasks.old.items tasks.new.items (λ rules seen. with_ev_kind rules seen id (plain.Call (view_expr callee.now) (view_exprs args.now))) (kind_weight (plain.Call (view_expr callee.now) (view_exprs args.now)))) }
{
    plan(
        tasks,
        &[
            Task::Check(CheckTask::Before, Check::Callee, callee),
            Task::Answer(AnswerStep::Spread),
            Task::Behind(BehindStep::Restore),
        ],
    )?;
    each_arg(tasks, CheckTask::Before, callee, args)?;
    plan(tasks, &[Task::Behind(BehindStep::Begin)])
}

/// `base:name(args)`
pub(crate) fn method<'t>(
    tasks: &mut Vec<Task<'t>>,
    base: &'t Expr,
    name: &'t Bytes,
    args: &'t [Expr],
) -> Result<(), AllocError>
    ensures { OnOk result ((id : ℕ) (span : Span) → Puts tasks.old.items tasks.new.items (λ rules seen. with_ev_kind rules seen id (plain.Method (view_expr base.now) name.now span (view_exprs args.now)))
        (kind_weight (plain.Method (view_expr base.now) name.now span (view_exprs args.now)))) }
{
    plan(
        tasks,
        &[
            Task::Base(BaseTask::Method(name, args), base),
            Task::Expr(ExprTask::Whole, base),
            Task::Expr(ExprTask::Met, base),
            Task::Answer(AnswerStep::Spread),
            Task::Behind(BehindStep::Restore),
        ],
    )?;
    each(tasks, CheckTask::Before, args)?;
    plan(tasks, &[Task::Behind(BehindStep::Begin)])
}

/// A unary operation.
pub(crate) fn unary<'t>(tasks: &mut Vec<Task<'t>>, op: UnOp, e: &'t Expr) -> Result<(), AllocError>
    ensures { OnOk result ((id : ℕ) → Puts tasks.old.items tasks.new.items (λ rules seen. with_ev_kind rules seen id (plain.Unary op (view_expr e.now))) (kind_weight (plain.Unary op (view_expr e.now)))) }
{
    plan(
        tasks,
        &[
            Task::Behind(BehindStep::Begin),
            Task::Check(CheckTask::Ask, Check::Operand(op), e),
            Task::Expr(ExprTask::Whole, e),
            Task::Answer(AnswerStep::Start),
            Task::Answer(AnswerStep::Spread),
            Task::Behind(BehindStep::Restore),
        ],
    )
}

/// An operation on two sides.
pub(crate) fn binary<'t>(
    tasks: &mut Vec<Task<'t>>,
    op: BinOp,
    left: &'t Expr,
    right: &'t Expr,
) -> Result<(), AllocError>
    ensures { OnOk result ((id : ℕ) → Puts tasks.old.items tasks.new.items (λ rules seen. with_ev_kind rules seen id (plain.Binary op (view_expr left.now) (view_expr right.now))) (kind_weight (plain.Binary op (view_expr left.now) (view_expr right.now)))) }
{
    match op {
        BinOp::And => and(tasks, left, right),
        BinOp::Or => or(tasks, left, right),
        _ => plan(
            tasks,
            &[
                Task::Behind(BehindStep::Begin),
                Task::Check(CheckTask::Ask, Check::Side { op, other: left }, right),
                Task::Expr(ExprTask::Whole, right),
                Task::Answer(AnswerStep::Start),
                Task::Check(CheckTask::Before, Check::Side { op, other: right }, left),
                Task::Answer(AnswerStep::Spread),
                Task::Behind(BehindStep::Restore),
            ],
        ),
    }
}

/// `left and right`
fn and<'t>(tasks: &mut Vec<Task<'t>>, left: &'t Expr, right: &'t Expr) -> Result<(), AllocError>
    ensures { OnOk result ((id : ℕ) → Puts tasks.old.items tasks.new.items (λ rules seen. with_ev_kind rules seen id (plain.Binary And (view_expr left.now) (view_expr right.now))) (kind_weight (plain.Binary And (view_expr left.now) (view_expr right.now)))) }
{
    plan(
        tasks,
        &[
            Task::Ask(AskStep::Again),
            Task::Expr(ExprTask::Whole, right),
            Task::Ask(AskStep::Falsy),
            Task::Expr(ExprTask::Whole, left),
            Task::Expr(ExprTask::And, left),
        ],
    )
}

/// `left or right`
fn or<'t>(tasks: &mut Vec<Task<'t>>, left: &'t Expr, right: &'t Expr) -> Result<(), AllocError>
    ensures { OnOk result ((id : ℕ) → Puts tasks.old.items tasks.new.items (λ rules seen. with_ev_kind rules seen id (plain.Binary Or (view_expr left.now) (view_expr right.now))) (kind_weight (plain.Binary Or (view_expr left.now) (view_expr right.now)))) }
{
    plan(
        tasks,
        &[
            Task::Ask(AskStep::Again),
            Task::Expr(ExprTask::Whole, right),
            Task::Ask(AskStep::Truthy),
            Task::Expr(ExprTask::Whole, left),
            Task::Expr(ExprTask::Or, left),
        ],
    )
}

/// An interpolated string.
pub(crate) fn interp<'t>(tasks: &mut Vec<Task<'t>>, parts: &'t [Expr]) -> Result<(), AllocError>
    ensures { OnOk result ((id : ℕ) (texts : List (List ℕ)) → Puts tasks.old.items tasks.new.items (λ rules seen. with_ev_kind rules seen id (plain.Interp texts (view_exprs parts.now))) (kind_weight (plain.Interp texts (view_exprs parts.now)))) }
{
    plan(
        tasks,
        &[
            Task::Answer(AnswerStep::Spread),
            Task::Behind(BehindStep::Restore),
        ],
    )?;
    each(tasks, CheckTask::Before, parts)?;
    plan(tasks, &[Task::Behind(BehindStep::Begin)])
}
