//! If-expressions, `if`s and the bodies of functions.
ghost use Rattle.std.specs.Prelude.{◌≡◌, ◌<◌, ◌≤◌, ◌+◌, ℕ, OnOk};
ghost use Rattle.luau_tree.specs.declared.position.Span.{Span};
ghost use Rattle.luau_tree.specs.Tree as plain;
ghost use Rattle.luau_tree.specs.View.{view_arm, view_arms, view_body, view_choice, view_choices, view_expr, view_maybe_block};
ghost use Rattle.report_rules.specs.Rules.{Rules};
ghost use Rattle.rule_work.specs.Work.{Work};
ghost use Rattle.infer_plan.specs.Run.{run};
ghost use Rattle.infer_plan.specs.Steps.{at_last, each_arm, each_choice, with_arm, with_body, with_choice, with_kind, with_stat};
ghost use Rattle.infer_plan.specs.Weights.{arms_weight, block_weight, body_weight, choices_weight, expr_weight, kind_weight, last_weight, stat_kind_weight, weights};

use crate::plan::plan;
use crate::task::{BodyTask, ExprTask, Step, Task};
use luau_tree::{Arm, Block, Body, Choice, Expr};
use std::alloc::AllocError;
use type_fields::Plain;

/// A choice of an if-expression.
fn choice<'t>(tasks: &mut Vec<Task<'t>>, choice: &'t Choice) -> Result<(), AllocError>
    ensures work { OnOk result ((rules : Rules) (work : Work) → run rules tasks.new.items work
        ≡ run rules tasks.old.items (with_choice rules (view_choice choice.now).0 (view_choice choice.now).1 work)) }
    ensures light { OnOk result (weights tasks.new.items ≤ weights tasks.old.items + (7 + (expr_weight (view_choice choice.now).0 + expr_weight (view_choice choice.now).1))) }
{
    let cond = &choice.cond;
    plan(
        tasks,
        &[
            Task::Step(Step::Hold),
            Task::Expr(ExprTask::Whole, cond),
            Task::Step(Step::Save),
            Task::Expr(ExprTask::WhenTrue, cond),
            Task::Expr(ExprTask::Whole, &choice.value),
            Task::Step(Step::Add),
            Task::Step(Step::Restore),
            Task::Expr(ExprTask::WhenFalse, cond),
            Task::Step(Step::Take),
        ],
    )
}

fn each_choice<'t>(tasks: &mut Vec<Task<'t>>, choices: &'t [Choice]) -> Result<(), AllocError>
    ensures work { OnOk result ((rules : Rules) (work : Work) → run rules tasks.new.items work ≡ run rules tasks.old.items (each_choice rules (view_choices choices.now) work)) }
    ensures light { OnOk result (weights tasks.new.items ≤ weights tasks.old.items + choices_weight (view_choices choices.now)) }
{
    for i in (0..choices.len()).rev() {
        choice(tasks, &choices[i])?;
    }
    Ok(())
}

/// `if c then x elseif d then y else z`
pub(crate) fn if_else<'t>(
    tasks: &mut Vec<Task<'t>>,
    choices: &'t [Choice],
    last: &'t Expr,
) -> Result<(), AllocError>
    ensures work { OnOk result ((rules : Rules) (id : ℕ) (work : Work) → run rules tasks.new.items work
        ≡ run rules tasks.old.items (with_kind rules id (plain.IfElse (view_choices choices.now) (view_expr last.now)) work)) }
    ensures light { OnOk result (weights tasks.new.items ≤ weights tasks.old.items + kind_weight (plain.IfElse (view_choices choices.now) (view_expr last.now))) }
{
    plan(
        tasks,
        &[
            Task::Expr(ExprTask::Whole, last),
            Task::Step(Step::UnionList),
            Task::Step(Step::Restore),
        ],
    )?;
    each_choice(tasks, choices)?;
    plan(
        tasks,
        &[Task::Step(Step::BeginList), Task::Step(Step::Save)],
    )
}

/// An arm of an `if`: the type of what it returns comes to the end of the innermost list.
fn arm<'t>(tasks: &mut Vec<Task<'t>>, arm: &'t Arm) -> Result<(), AllocError>
    ensures work { OnOk result ((rules : Rules) (work : Work) → run rules tasks.new.items work
        ≡ run rules tasks.old.items (with_arm rules (view_arm arm.now).0 (view_arm arm.now).1 work)) }
    ensures light { OnOk result (weights tasks.new.items ≤ weights tasks.old.items + (8 + (expr_weight (view_arm arm.now).0 + block_weight (view_arm arm.now).1))) }
{
    let cond = &arm.cond;
    plan(
        tasks,
        &[
            Task::Step(Step::Hold),
            Task::Expr(ExprTask::Whole, cond),
            Task::Step(Step::Save),
            Task::Expr(ExprTask::WhenTrue, cond),
            Task::Block(&arm.block),
            Task::Step(Step::Add),
            Task::Step(Step::AddEnd),
            Task::Step(Step::Restore),
            Task::Expr(ExprTask::WhenFalse, cond),
            Task::Step(Step::Take),
        ],
    )
}

fn each_arm<'t>(tasks: &mut Vec<Task<'t>>, arms: &'t [Arm]) -> Result<(), AllocError>
    ensures work { OnOk result ((rules : Rules) (work : Work) → run rules tasks.new.items work ≡ run rules tasks.old.items (each_arm rules (view_arms arms.now) work)) }
    ensures light { OnOk result (weights tasks.new.items ≤ weights tasks.old.items + arms_weight (view_arms arms.now)) }
{
    for i in (0..arms.len()).rev() {
        arm(tasks, &arms[i])?;
    }
    Ok(())
}

/// The block behind an `else`, if there is one.
fn last_block<'t>(tasks: &mut Vec<Task<'t>>, last: &'t Option<Block>) -> Result<(), AllocError>
    ensures work { OnOk result ((rules : Rules) (work : Work) → run rules tasks.new.items work ≡ run rules tasks.old.items (at_last rules (view_maybe_block last.now) work)) }
    ensures light { OnOk result (weights tasks.new.items ≤ weights tasks.old.items + last_weight (view_maybe_block last.now)) }
{
    match last {
        None => plan(tasks, &[Task::Step(Step::Plain(Plain::Never))]),
        Some(body) => plan(tasks, &[Task::Block(body)]),
    }
}

/// `if .. then .. elseif .. then .. else .. end`
pub(crate) fn if_stat<'t>(
    tasks: &mut Vec<Task<'t>>,
    arms: &'t [Arm],
    last: &'t Option<Block>,
) -> Result<(), AllocError>
    ensures work { OnOk result ((rules : Rules) (span : Span) (work : Work) → run rules tasks.new.items work
        ≡ run rules tasks.old.items (with_stat rules (plain.the_stat span (plain.If (view_arms arms.now) (view_maybe_block last.now))) work)) }
    ensures light { OnOk result (weights tasks.new.items ≤ weights tasks.old.items + stat_kind_weight (plain.If (view_arms arms.now) (view_maybe_block last.now))) }
{
    plan(
        tasks,
        &[
            Task::Step(Step::UnionList),
            Task::Step(Step::AddEnd),
            Task::Step(Step::JoinEnds),
        ],
    )?;
    last_block(tasks, last)?;
    each_arm(tasks, arms)?;
    plan(
        tasks,
        &[Task::Step(Step::BeginEnds), Task::Step(Step::BeginList)],
    )
}

/// A function's body.
pub fn body<'t>(tasks: &mut Vec<Task<'t>>, body: &'t Body) -> Result<(), AllocError>
    ensures work { OnOk result ((rules : Rules) (work : Work) → run rules tasks.new.items work ≡ run rules tasks.old.items (with_body rules (view_body body.now) work)) }
    ensures light { OnOk result (weights tasks.new.items < weights tasks.old.items + body_weight (view_body body.now)) }
{
    plan(
        tasks,
        &[
            Task::Body(BodyTask::See, body),
            Task::Step(Step::Hold),
            Task::Step(Step::Save),
            Task::Body(BodyTask::Enter, body),
            Task::Block(&body.block),
            Task::Step(Step::Restore),
            Task::Step(Step::Take),
        ],
    )
}
