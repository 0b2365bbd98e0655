//! Expressions by their forms.
ghost use Rattle.std.specs.Prelude.{◌≡◌, ◌<◌, ◌≤◌, ◌+◌, ℕ, OnOk};
ghost use Rattle.luau_tree.specs.View.{view_expr};
ghost use Rattle.report_rules.specs.Rules.{Rules};
ghost use Rattle.module_facts.specs.Facts.{IsInOrder};
ghost use Rattle.rule_work.specs.Work.{Work};
ghost use Rattle.infer_plan.specs.Read.{IsReadBy};
ghost use Rattle.infer_plan.specs.Run.{act, run};
ghost use Rattle.infer_plan.specs.Steps.{with_expr, with_form, with_target, with_target_form};
ghost use Rattle.infer_plan.specs.Weights.{expr_weight, form_weight, weight, weights};

use crate::branches::if_else;
use crate::exprs::{at, binary, call, function, index, inner, interp, method, unary};
use crate::items::table;
use crate::plan::plan;
use crate::task::{ExprTask, NameTask, Step, Task};
use luau_tree::{Expr, ExprKind};
use module_facts::Facts;
use std::alloc::AllocError;
use type_fields::Plain;

/// An expression.
pub fn expr<'t>(facts: &Facts<'_>, tasks: &mut Vec<Task<'t>>, e: &'t Expr) -> Result<(), AllocError>
    requires { IsInOrder facts.now.scoped.now }
    ensures work { OnOk result ((rules : Rules) (work : Work) → IsReadBy facts.now rules → run rules tasks.new.items work
        ≡ run rules tasks.old.items (with_expr rules (view_expr e.now) work)) }
    ensures light { OnOk result (weights tasks.new.items < weights tasks.old.items + expr_weight (view_expr e.now)) }
{
    let has_effects = facts.effects(e);
    plan(
        tasks,
        &[
            Task::Expr(ExprTask::Open, e),
            Task::Expr(ExprTask::Form, e),
            Task::Expr(ExprTask::Path, e),
            Task::Step(Step::Close),
            Task::Step(Step::After(has_effects)),
        ],
    )
}

/// The step that gives the type of a target's form.
fn target_task<'t>(e: &'t Expr) -> Task<'t>
    ensures work { (rules : Rules) (work : Work) → act rules result work ≡ with_target_form rules (view_expr e.now) work }
    ensures light { weight result ≤ form_weight (view_expr e.now) }
{
    match &e.kind {
        ExprKind::Name(_) => Task::Expr(ExprTask::TargetName, e),
        _ => Task::Expr(ExprTask::Form, e),
    }
}

/// A target of a write.
pub fn target<'t>(
    facts: &Facts<'_>,
    tasks: &mut Vec<Task<'t>>,
    e: &'t Expr,
) -> Result<(), AllocError>
    requires { IsInOrder facts.now.scoped.now }
    ensures work { OnOk result ((rules : Rules) (work : Work) → IsReadBy facts.now rules → run rules tasks.new.items work
        ≡ run rules tasks.old.items (with_target rules (view_expr e.now) work)) }
    ensures light { OnOk result (weights tasks.new.items < weights tasks.old.items + expr_weight (view_expr e.now)) }
{
    let has_effects = facts.effects(e);
    plan(
        tasks,
        &[
            Task::Expr(ExprTask::Open, e),
            target_task(e),
            Task::Step(Step::Close),
            Task::Step(Step::After(has_effects)),
        ],
    )
}

/// The form of an expression, but for its effects.
pub fn form<'t>(facts: &Facts<'_>, tasks: &mut Vec<Task<'t>>, e: &'t Expr) -> Result<(), AllocError>
    requires { IsInOrder facts.now.scoped.now }
    ensures work { OnOk result ((rules : Rules) (work : Work) → IsReadBy facts.now rules → run rules tasks.new.items work
        ≡ run rules tasks.old.items (with_form rules (view_expr e.now) work)) }
    ensures light { OnOk result (weights tasks.new.items < weights tasks.old.items + form_weight (view_expr e.now)) }
{
    match &e.kind {
        ExprKind::Nil => plan(tasks, &[Task::Step(Step::Plain(Plain::Nil))]),
        ExprKind::True => plan(tasks, &[Task::Step(Step::Plain(Plain::True))]),
        ExprKind::False => plan(tasks, &[Task::Step(Step::Plain(Plain::False))]),
        ExprKind::Number(_) => plan(tasks, &[Task::Step(Step::Plain(Plain::Number))]),
        ExprKind::Str(text) => plan(tasks, &[Task::Name(NameTask::Text, text)]),
        ExprKind::Vararg => plan(tasks, &[Task::Step(Step::Plain(Plain::Unknown))]),
        ExprKind::Name(_) => plan(tasks, &[Task::Expr(ExprTask::Name, e)]),
        ExprKind::Function(body) => function(tasks, body.get()),
        ExprKind::Index { base, name } => index(tasks, base.get(), name),
        ExprKind::At { base, key } => at(tasks, base.get(), key.get()),
        ExprKind::Call { callee, args } => call(tasks, e, callee.get(), args.as_slice()),
        ExprKind::Method { base, args, .. } => method(tasks, base.get(), args.as_slice()),
        ExprKind::Paren(e) => inner(tasks, e.get()),
        ExprKind::Unary { op, e } => unary(tasks, *op, e.get()),
        ExprKind::Binary { op, left, right } => binary(tasks, *op, left.get(), right.get()),
        ExprKind::IfElse { arms, last } => if_else(tasks, arms.as_slice(), last.get()),
        ExprKind::Table(items) => table(facts, tasks, items.as_slice()),
        ExprKind::Interp { parts, .. } => interp(tasks, parts.as_slice()),
        ExprKind::Assert { e, .. } => inner(tasks, e.get()),
    }
}
