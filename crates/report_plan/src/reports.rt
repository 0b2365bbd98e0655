//! The reports of the parts of expressions, by their forms.
ghost use Rattle.std.specs.Prelude.{ℕ, List, OnOk};
ghost use Rattle.luau_tree.specs.declared.position.Span.{Span};
ghost use Rattle.luau_tree.specs.Tree as plain;
ghost use Rattle.luau_tree.specs.View.{view_body, view_expr, view_exprs};
ghost use Rattle.report_work.specs.Checks.{Check as PlainCheck};
ghost use Rattle.report_work.specs.Found.{found_parts_as};
ghost use Rattle.report_plan.specs.Run.{check_meant};
ghost use Rattle.report_plan.specs.Puts.{Puts};
ghost use Rattle.report_plan.specs.Weights.{kind_weight};

use crate::check::Check;
use crate::lists::{each, each_arg};
use crate::plan::plan;
use crate::task::{BodyTask, CheckTask, Task};
use luau_tree::{BinOp, Body, Expr, UnOp};
use std::alloc::AllocError;

/// A function literal.
pub(crate) fn function<'t>(tasks: &mut Vec<Task<'t>>, body: &'t Body) -> Result<(), AllocError>
    ensures { OnOk result ((how : PlainCheck) (id : ℕ) (span : Span) → Puts tasks.old.items tasks.new.items (λ rules seen. found_parts_as rules seen how (plain.the_expr id span (plain.FunctionExpr (view_body body.now)))) (kind_weight (plain.FunctionExpr (view_body body.now)))) }
{
    plan(tasks, &[Task::Body(BodyTask::Whole, body)])
}

/// `base.name`, where the base is checked in some way.
pub(crate) fn index<'t>(
    tasks: &mut Vec<Task<'t>>,
    how: Check<'t>,
    base: &'t Expr,
) -> Result<(), AllocError>
    ensures { OnOk result ((id : ℕ) (span : Span) (name : List ℕ) → Puts tasks.old.items tasks.new.items (λ rules seen. found_parts_as rules seen (check_meant rules how.entry) (plain.the_expr id span (plain.Index (view_expr base.now) name))) (kind_weight (plain.Index (view_expr base.now) name))) }
{
    plan(tasks, &[Task::Check(CheckTask::Found, how, base)])
}

/// `base[key]`, where the base is checked in some way.
pub(crate) fn at<'t>(
    tasks: &mut Vec<Task<'t>>,
    how: Check<'t>,
    base: &'t Expr,
    key: &'t Expr,
) -> Result<(), AllocError>
    ensures { OnOk result ((id : ℕ) (span : Span) → Puts tasks.old.items tasks.new.items (λ rules seen. found_parts_as rules seen (check_meant rules how.entry) (plain.the_expr id span (plain.At (view_expr base.now) (view_expr key.now)))) (kind_weight (plain.At (view_expr base.now) (view_expr key.now)))) }
{
    plan(
        tasks,
        &[
            Task::Check(CheckTask::Found, Check::Unchecked, key),
            Task::Check(CheckTask::Found, how, base),
        ],
    )
}

/// `callee(args)`
pub(crate) fn call<'t>(
    tasks: &mut Vec<Task<'t>>,
    callee: &'t Expr,
    args: &'t [Expr],
) -> Result<(), AllocError>
    ensures { OnOk result ((how : PlainCheck) (id : ℕ) (span : Span) → Puts tasks.old.items tasks.new.items (λ rules seen. found_parts_as rules seen how (plain.the_expr id span (plain.Call (view_expr callee.now) (view_exprs args.now)))) (kind_weight (plain.Call (view_expr callee.now) (view_exprs args.now)))) }
{
    plan(
        tasks,
        &[Task::Check(CheckTask::Found, Check::Callee, callee)],
    )?;
    each_arg(tasks, CheckTask::Found, callee, args)
}

/// `base:name(args)`
pub(crate) fn method<'t>(
    tasks: &mut Vec<Task<'t>>,
    base: &'t Expr,
    args: &'t [Expr],
) -> Result<(), AllocError>
    ensures { OnOk result ((how : PlainCheck) (id : ℕ) (span : Span) (name : List ℕ) (name_span : Span) → Puts tasks.old.items tasks.new.items (λ rules seen. found_parts_as rules seen how (plain.the_expr id span (plain.Method (view_expr base.now) name name_span (view_exprs args.now))))
        (kind_weight (plain.Method (view_expr base.now) name name_span (view_exprs args.now)))) }
{
    plan(tasks, &[Task::Check(CheckTask::Found, Check::Base, base)])?;
    each(tasks, CheckTask::Found, args)
}

/// `(e)`, or `e :: T`.
pub(crate) fn inner<'t>(tasks: &mut Vec<Task<'t>>, e: &'t Expr) -> Result<(), AllocError>
    ensures paren { OnOk result ((how : PlainCheck) (id : ℕ) (span : Span) → Puts tasks.old.items tasks.new.items (λ rules seen. found_parts_as rules seen how (plain.the_expr id span (plain.Paren (view_expr e.now)))) (kind_weight (plain.Paren (view_expr e.now)))) }
    ensures assert { OnOk result ((how : PlainCheck) (id : ℕ) (span : Span) (syntax : plain.TypeSyntax) → Puts tasks.old.items tasks.new.items (λ rules seen. found_parts_as rules seen how (plain.the_expr id span (plain.Assert (view_expr e.now) syntax))) (kind_weight (plain.Assert (view_expr e.now) syntax))) }
{
    plan(tasks, &[Task::Check(CheckTask::Found, Check::Unchecked, e)])
}

/// A unary operation.
pub(crate) fn unary<'t>(tasks: &mut Vec<Task<'t>>, op: UnOp, e: &'t Expr) -> Result<(), AllocError>
    ensures { OnOk result ((how : PlainCheck) (id : ℕ) (span : Span) → Puts tasks.old.items tasks.new.items (λ rules seen. found_parts_as rules seen how (plain.the_expr id span (plain.Unary op (view_expr e.now)))) (kind_weight (plain.Unary op (view_expr e.now)))) }
{
    plan(
        tasks,
        &[Task::Check(CheckTask::Found, Check::Operand(op), e)],
    )
}

/// An operation on two sides.
pub(crate) fn binary<'t>(
    tasks: &mut Vec<Task<'t>>,
    op: BinOp,
    left: &'t Expr,
    right: &'t Expr,
) -> Result<(), AllocError>
    ensures { OnOk result ((how : PlainCheck) (id : ℕ) (span : Span) → Puts tasks.old.items tasks.new.items (λ rules seen. found_parts_as rules seen how (plain.the_expr id span (plain.Binary op (view_expr left.now) (view_expr right.now)))) (kind_weight (plain.Binary op (view_expr left.now) (view_expr right.now)))) }
{
    plan(
        tasks,
        &[
            Task::Check(CheckTask::Found, Check::Side { op, other: left }, right),
            Task::Check(CheckTask::Found, Check::Side { op, other: right }, left),
        ],
    )
}

/// An interpolated string.
pub(crate) fn interp<'t>(tasks: &mut Vec<Task<'t>>, parts: &'t [Expr]) -> Result<(), AllocError>
    ensures { OnOk result ((how : PlainCheck) (id : ℕ) (span : Span) (texts : List (List ℕ)) → Puts tasks.old.items tasks.new.items (λ rules seen. found_parts_as rules seen how (plain.the_expr id span (plain.Interp texts (view_exprs parts.now)))) (kind_weight (plain.Interp texts (view_exprs parts.now)))) }
{
    each(tasks, CheckTask::Found, parts)
}
