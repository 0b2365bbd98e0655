//! Expressions by their forms.
ghost use Rattle.std.specs.Prelude.{◌≡◌, ◌<◌, ◌+◌, List, OnOk};
ghost use Rattle.luau_tree.specs.View.{view_expr};
ghost use Rattle.report_rules.specs.Findings.{is_builtin};
ghost use Rattle.report_rules.specs.Rules.{Rules, use_of};
ghost use Rattle.report_rules.specs.Seen.{Seen};
ghost use Rattle.report_work.specs.Expressions.{before as plain_before, with_ev, with_ev_form};
ghost use Rattle.report_work.specs.Found.{base_check as plain_base_check, found_as, found_parts_as};
ghost use Rattle.report_work.specs.Statements.{passed as plain_passed};
ghost use Rattle.report_work.specs.Work.{Work};
ghost use Rattle.report_plan.specs.Puts.{Puts};
ghost use Rattle.report_plan.specs.Run.{check_meant, run};
ghost use Rattle.report_plan.specs.Weights.{checked_weight, expr_weight, form_weight, weights};
ghost use Rattle.report_plan.specs.declared.task.CheckTask.TheVariants.{Before, Passed};

use crate::branches::{if_else, if_else_found};
use crate::check::Check;
use crate::items::{table, table_found};
use crate::plan::plan;
use crate::task::{AnswerStep, CheckTask, ExprTask, Task};
use crate::{exprs, reports};
use luau_tree::{Expr, ExprKind};
use std::alloc::AllocError;

/// The contexts of the form of an expression.
fn form<'t>(tasks: &mut Vec<Task<'t>>, e: &'t Expr) -> Result<(), AllocError>
    ensures { OnOk result (Puts tasks.old.items tasks.new.items (λ rules seen. with_ev_form rules seen (view_expr e.now)) (form_weight (view_expr e.now))) }
{
    match &e.kind {
        ExprKind::Nil => plan(tasks, &[Task::Answer(AnswerStep::Unfailing)]),
        ExprKind::True => plan(tasks, &[Task::Answer(AnswerStep::Unfailing)]),
        ExprKind::False => plan(tasks, &[Task::Answer(AnswerStep::Unfailing)]),
        ExprKind::Number(_) => plan(tasks, &[Task::Answer(AnswerStep::Unfailing)]),
        ExprKind::Str(_) => plan(tasks, &[Task::Answer(AnswerStep::Unfailing)]),
        ExprKind::Vararg => plan(tasks, &[Task::Answer(AnswerStep::Unfailing)]),
        ExprKind::Function(_) => plan(tasks, &[Task::Answer(AnswerStep::Unfailing)]),
        ExprKind::Name(_) => plan(tasks, &[Task::Expr(ExprTask::Name, e)]),
        ExprKind::Index { base, name } => exprs::index(tasks, base.get(), name),
        ExprKind::At { base, key } => exprs::at(tasks, base.get(), key.get()),
        ExprKind::Call { callee, args } => exprs::call(tasks, callee.get(), args.as_slice()),
        ExprKind::Method {
            base,
            name,
            args,
            ..
        } => { exprs::method(tasks, base.get(), name, args.as_slice()) }
        ExprKind::Paren(e) => exprs::inner(tasks, e.get()),
        ExprKind::Unary { op, e } => exprs::unary(tasks, *op, e.get()),
        ExprKind::Binary { op, left, right } => exprs::binary(tasks, *op, left.get(), right.get()),
        ExprKind::IfElse { arms, last } => if_else(tasks, arms.as_slice(), last.get()),
        ExprKind::Table(items) => table(tasks, items.as_slice()),
        ExprKind::Interp { parts, .. } => exprs::interp(tasks, parts.as_slice()),
        ExprKind::Assert { e, .. } => exprs::inner(tasks, e.get()),
    }
}

/// The contexts of an expression, where it is known whether it is a builtin's path.
pub fn expr<'t>(tasks: &mut Vec<Task<'t>>, e: &'t Expr, is_path: bool) -> Result<(), AllocError>
    ensures work { OnOk result ((rules : Rules) (seen : List Seen) (work : Work) → is_path ≡ is_builtin (use_of rules (view_expr e.now))
        → run rules seen tasks.new.items work ≡ run rules seen tasks.old.items (with_ev rules seen (view_expr e.now) work)) }
    ensures light { OnOk result (weights tasks.new.items < weights tasks.old.items + expr_weight (view_expr e.now)) }
{
    if is_path {
        return plan(tasks, &[Task::Answer(AnswerStep::Unfailing)]);
    }
    form(tasks, e)
}

/// The reports of the parts of an expression, where its base is checked in some way.
pub(crate) fn parts<'t>(
    tasks: &mut Vec<Task<'t>>,
    how: Check<'t>,
    e: &'t Expr,
) -> Result<(), AllocError>
    ensures { OnOk result (Puts tasks.old.items tasks.new.items (λ rules seen. found_parts_as rules seen (check_meant rules how.entry) (view_expr e.now)) (form_weight (view_expr e.now))) }
{
    match &e.kind {
        ExprKind::Nil => Ok(()),
        ExprKind::True => Ok(()),
        ExprKind::False => Ok(()),
        ExprKind::Number(_) => Ok(()),
        ExprKind::Str(_) => Ok(()),
        ExprKind::Vararg => Ok(()),
        ExprKind::Name(_) => Ok(()),
        ExprKind::Function(body) => reports::function(tasks, body.get()),
        ExprKind::Index { base, .. } => reports::index(tasks, how, base.get()),
        ExprKind::At { base, key } => reports::at(tasks, how, base.get(), key.get()),
        ExprKind::Call { callee, args } => reports::call(tasks, callee.get(), args.as_slice()),
        ExprKind::Method { base, args, .. } => reports::method(tasks, base.get(), args.as_slice()),
        ExprKind::Paren(e) => reports::inner(tasks, e.get()),
        ExprKind::Unary { op, e } => reports::unary(tasks, *op, e.get()),
        ExprKind::Binary { op, left, right } => reports::binary(
            tasks,
            *op,
            left.get(),
            right.get(),
        ),
        ExprKind::IfElse { arms, last } => if_else_found(tasks, arms.as_slice(), last.get()),
        ExprKind::Table(items) => table_found(tasks, items.as_slice()),
        ExprKind::Interp { parts, .. } => reports::interp(tasks, parts.as_slice()),
        ExprKind::Assert { e, .. } => reports::inner(tasks, e.get()),
    }
}

/// How the base of what is read is checked: that of a builtin's path isn't evaluated.
fn base_check<'t>(is_path: bool) -> Check<'t>
    ensures { (rules : Rules) → check_meant rules result ≡ plain_base_check is_path }
{
    if is_path {
        Check::Unchecked
    } else {
        Check::Base
    }
}

/// The reports of an expression that is checked, where it is known whether it is a builtin's path.
pub fn found<'t>(
    tasks: &mut Vec<Task<'t>>,
    check: Check<'t>,
    e: &'t Expr,
    is_path: bool,
) -> Result<(), AllocError>
    ensures work { OnOk result ((rules : Rules) (seen : List Seen) (work : Work) → is_path ≡ is_builtin (use_of rules (view_expr e.now))
        → run rules seen tasks.new.items work ≡ run rules seen tasks.old.items (found_as rules seen (check_meant rules check.entry) (view_expr e.now) work)) }
    ensures light { OnOk result (weights tasks.new.items < weights tasks.old.items + expr_weight (view_expr e.now)) }
{
    plan(tasks, &[Task::Check(CheckTask::Own, check, e)])?;
    parts(tasks, base_check(is_path), e)
}

/// An expression that is checked stands before what is behind.
pub fn before<'t>(
    tasks: &mut Vec<Task<'t>>,
    check: Check<'t>,
    e: &'t Expr,
) -> Result<(), AllocError>
    ensures work { OnOk result ((rules : Rules) (seen : List Seen) (work : Work) → run rules seen tasks.new.items work
        ≡ run rules seen tasks.old.items (plain_before rules seen (check_meant rules check.entry) (view_expr e.now) work)) }
    ensures light { OnOk result (weights tasks.new.items < weights tasks.old.items + checked_weight Before (expr_weight (view_expr e.now))) }
{
    plan(
        tasks,
        &[
            Task::Check(CheckTask::Ask, check, e),
            Task::Expr(ExprTask::Whole, e),
            Task::Expr(ExprTask::Met, e),
        ],
    )
}

/// An expression that is checked has its reports, and stands before what is behind.
pub fn passed<'t>(
    tasks: &mut Vec<Task<'t>>,
    check: Check<'t>,
    e: &'t Expr,
) -> Result<(), AllocError>
    ensures work { OnOk result ((rules : Rules) (seen : List Seen) (work : Work) → run rules seen tasks.new.items work
        ≡ run rules seen tasks.old.items (plain_passed rules seen (check_meant rules check.entry) (view_expr e.now) work)) }
    ensures light { OnOk result (weights tasks.new.items < weights tasks.old.items + checked_weight Passed (expr_weight (view_expr e.now))) }
{
    plan(
        tasks,
        &[
            Task::Check(CheckTask::Found, check, e),
            Task::Check(CheckTask::Before, check, e),
        ],
    )
}
