//! If-expressions and `if`s. What comes last in the text is done first.
ghost use Rattle.std.specs.Prelude.{◌+◌, ℕ, OnOk};
ghost use Rattle.luau_tree.specs.declared.position.Span.{Span};
ghost use Rattle.luau_tree.specs.Tree as plain;
ghost use Rattle.luau_tree.specs.View.{view_arm, view_arms, view_choice, view_choices, view_expr, view_maybe_block};
ghost use Rattle.report_work.specs.Checks.{Check as PlainCheck};
ghost use Rattle.report_work.specs.Expressions as listed;
ghost use Rattle.report_work.specs.Found.{found_choice, found_parts_as};
ghost use Rattle.report_work.specs.Statements as stated;
ghost use Rattle.report_plan.specs.Puts.{Puts};
ghost use Rattle.report_plan.specs.Weights.{arm_weight, arms_weight, choice_weight, choices_weight, kind_weight, last_weight, stat_kind_weight};

use crate::check::Check;
use crate::plan::plan;
use crate::task::{AskStep, BehindStep, CheckTask, ExprTask, Task};
use luau_tree::{Arm, Block, Choice, Expr};
use std::alloc::AllocError;

/// A choice of an if-expression, behind which what comes else was answered.
fn choice<'t>(tasks: &mut Vec<Task<'t>>, choice: &'t Choice) -> Result<(), AllocError>
    ensures { OnOk result (Puts tasks.old.items tasks.new.items (λ rules seen. listed.with_choice rules seen (view_choice choice.now).0 (view_choice choice.now).1) (choice_weight (view_choice choice.now).0 (view_choice choice.now).1)) }
{
    plan(
        tasks,
        &[
            Task::Ask(AskStep::Again),
            Task::Expr(ExprTask::Whole, &choice.value),
            Task::Ask(AskStep::Never),
            Task::Expr(ExprTask::Whole, &choice.cond),
            Task::Expr(ExprTask::Choose, &choice.cond),
        ],
    )
}

fn each_choice<'t>(tasks: &mut Vec<Task<'t>>, choices: &'t [Choice]) -> Result<(), AllocError>
    ensures { OnOk result (Puts tasks.old.items tasks.new.items (λ rules seen. listed.each_choice (listed.with_choice rules seen) (view_choices choices.now)) (choices_weight (view_choices choices.now))) }
{
    for one in choices {
        choice(tasks, one)?;
    }
    Ok(())
}

/// The contexts of `if c then x elseif d then y else z`.
pub(crate) fn if_else<'t>(
    tasks: &mut Vec<Task<'t>>,
    choices: &'t [Choice],
    last: &'t Expr,
) -> Result<(), AllocError>
    ensures { OnOk result ((id : ℕ) → Puts tasks.old.items tasks.new.items (λ rules seen. listed.with_ev_kind rules seen id (plain.IfElse (view_choices choices.now) (view_expr last.now))) (kind_weight (plain.IfElse (view_choices choices.now) (view_expr last.now)))) }
{
    plan(tasks, &[Task::Ask(AskStep::Drop)])?;
    each_choice(tasks, choices)?;
    plan(
        tasks,
        &[Task::Ask(AskStep::Again), Task::Expr(ExprTask::Whole, last)],
    )
}

/// The reports of a choice.
fn choice_found<'t>(tasks: &mut Vec<Task<'t>>, choice: &'t Choice) -> Result<(), AllocError>
    ensures { OnOk result (Puts tasks.old.items tasks.new.items (λ rules seen. found_choice rules seen (view_choice choice.now).0 (view_choice choice.now).1) (choice_weight (view_choice choice.now).0 (view_choice choice.now).1)) }
{
    plan(
        tasks,
        &[
            Task::Check(CheckTask::Found, Check::Unchecked, &choice.value),
            Task::Check(CheckTask::Found, Check::Unchecked, &choice.cond),
        ],
    )
}

fn each_choice_found<'t>(tasks: &mut Vec<Task<'t>>, choices: &'t [Choice]) -> Result<(), AllocError>
    ensures { OnOk result (Puts tasks.old.items tasks.new.items (λ rules seen. listed.each_choice (found_choice rules seen) (view_choices choices.now)) (choices_weight (view_choices choices.now))) }
{
    for one in choices {
        choice_found(tasks, one)?;
    }
    Ok(())
}

/// The reports of the parts of `if c then x elseif d then y else z`.
pub(crate) fn if_else_found<'t>(
    tasks: &mut Vec<Task<'t>>,
    choices: &'t [Choice],
    last: &'t Expr,
) -> Result<(), AllocError>
    ensures { OnOk result ((how : PlainCheck) (id : ℕ) (span : Span) → Puts tasks.old.items tasks.new.items (λ rules seen. found_parts_as rules seen how (plain.the_expr id span (plain.IfElse (view_choices choices.now) (view_expr last.now))))
        (kind_weight (plain.IfElse (view_choices choices.now) (view_expr last.now)))) }
{
    each_choice_found(tasks, choices)?;
    plan(
        tasks,
        &[Task::Check(CheckTask::Found, Check::Unchecked, last)],
    )
}

/// An arm of an `if`.
fn arm<'t>(tasks: &mut Vec<Task<'t>>, arm: &'t Arm) -> Result<(), AllocError>
    ensures { OnOk result (Puts tasks.old.items tasks.new.items (λ rules seen. stated.with_arm rules seen (view_arm arm.now).0 (view_arm arm.now).1) (arm_weight (view_arm arm.now).0 (view_arm arm.now).1)) }
{
    plan(
        tasks,
        &[
            Task::Behind(BehindStep::Keep),
            Task::Behind(BehindStep::Again),
            Task::Block(&arm.block),
            Task::Expr(ExprTask::Decide, &arm.cond),
            Task::Check(CheckTask::Passed, Check::Unchecked, &arm.cond),
        ],
    )
}

fn each_arm<'t>(tasks: &mut Vec<Task<'t>>, arms: &'t [Arm]) -> Result<(), AllocError>
    ensures { OnOk result (Puts tasks.old.items tasks.new.items (λ rules seen. stated.each_arm (stated.with_arm rules seen) (view_arms arms.now)) (arms_weight (view_arms arms.now))) }
{
    for one in arms {
        arm(tasks, one)?;
    }
    Ok(())
}

/// The block behind `else`, or nothing.
fn last_block<'t>(tasks: &mut Vec<Task<'t>>, last: &'t Option<Block>) -> Result<(), AllocError>
    ensures { OnOk result (Puts tasks.old.items tasks.new.items (λ rules seen. stated.at_last rules seen (view_maybe_block last.now)) (last_weight (view_maybe_block last.now))) }
{
    match last {
        None => Ok(()),
        Some(body) => plan(tasks, &[Task::Block(body)]),
    }
}

/// `if c then .. elseif d then .. else .. end`
pub(crate) fn if_stat<'t>(
    tasks: &mut Vec<Task<'t>>,
    arms: &'t [Arm],
    last: &'t Option<Block>,
) -> Result<(), AllocError>
    ensures { OnOk result ((span : Span) → Puts tasks.old.items tasks.new.items (λ rules seen. stated.with_stat rules seen (plain.the_stat span (plain.If (view_arms arms.now) (view_maybe_block last.now))))
        (stat_kind_weight (plain.If (view_arms arms.now) (view_maybe_block last.now)))) }
{
    plan(tasks, &[Task::Behind(BehindStep::Drop)])?;
    each_arm(tasks, arms)?;
    last_block(tasks, last)?;
    plan(tasks, &[Task::Behind(BehindStep::Keep)])
}
