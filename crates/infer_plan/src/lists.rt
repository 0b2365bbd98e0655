//! Lists of values and of targets, and blocks: one after the other.
ghost use Rattle.std.specs.Prelude.{◌≡◌, ◌<◌, ◌≤◌, ◌+◌, OnOk};
ghost use Rattle.luau_tree.specs.View.{view_block, view_expr, view_exprs, view_stat, view_stats};
ghost use Rattle.report_rules.specs.Rules.{Rules};
ghost use Rattle.module_facts.specs.Facts.{IsInOrder};
ghost use Rattle.rule_work.specs.Moves.{added, put_aside, taken};
ghost use Rattle.rule_work.specs.Work.{Work};
ghost use Rattle.infer_plan.specs.Read.{IsReadBy};
ghost use Rattle.infer_plan.specs.Run.{run};
ghost use Rattle.infer_plan.specs.Steps.{each_stat, each_target, each_value, with_block, with_stat, with_target, with_targets, with_value, with_values};
ghost use Rattle.infer_plan.specs.Weights.{block_weight, expr_weight, exprs_weight, list_weight, stat_weight, stats_weight, weights};

use crate::plan::plan;
use crate::task::{ExprTask, StatTask, Step, Task};
use luau_tree::{Block, Expr, Stat};
use module_facts::Facts;
use std::alloc::AllocError;
use type_fields::Plain;

/// A value, whose type comes to the end of the innermost list.
fn value<'t>(tasks: &mut Vec<Task<'t>>, e: &'t Expr, effects_later: bool) -> Result<(), AllocError>
    ensures work { OnOk result ((rules : Rules) (work : Work) → run rules tasks.new.items work ≡ run rules tasks.old.items (with_value rules effects_later (view_expr e.now) work)) }
    ensures light { OnOk result (weights tasks.new.items ≤ weights tasks.old.items + (4 + expr_weight (view_expr e.now))) }
{
    plan(
        tasks,
        &[
            Task::Step(Step::Hold),
            Task::Expr(ExprTask::Whole, e),
            Task::Step(Step::Keep(effects_later)),
            Task::Step(Step::Add),
            Task::Step(Step::Take),
        ],
    )
}

/// Values. Those that stand last are put there first, and so it is known of each whether one behind it has effects.
fn each_value<'t>(
    facts: &Facts<'_>,
    tasks: &mut Vec<Task<'t>>,
    es: &'t [Expr],
) -> Result<(), AllocError>
    requires { IsInOrder facts.now.scoped.now }
    ensures work { OnOk result ((rules : Rules) (work : Work) → IsReadBy facts.now rules → run rules tasks.new.items work
        ≡ run rules tasks.old.items (each_value rules (view_exprs es.now) work)) }
    ensures light { OnOk result (weights tasks.new.items ≤ weights tasks.old.items + exprs_weight (view_exprs es.now)) }
{
    let mut later = false;
    for i in (0..es.len()).rev() {
        let e = &es[i];
        value(tasks, e, later)?;
        later |= facts.effects(e);
    }
    Ok(())
}

/// The values of a list.
pub fn values<'t>(
    facts: &Facts<'_>,
    tasks: &mut Vec<Task<'t>>,
    es: &'t [Expr],
) -> Result<(), AllocError>
    requires { IsInOrder facts.now.scoped.now }
    ensures work { OnOk result ((rules : Rules) (work : Work) → IsReadBy facts.now rules → run rules tasks.new.items work
        ≡ run rules tasks.old.items (with_values rules (view_exprs es.now) work)) }
    ensures light { OnOk result (weights tasks.new.items < weights tasks.old.items + list_weight (view_exprs es.now)) }
{
    let has_effects = facts.any_effects(es);
    plan(
        tasks,
        &[
            Task::Step(Step::Restore),
            Task::Step(Step::After(has_effects)),
        ],
    )?;
    each_value(facts, tasks, es)?;
    plan(
        tasks,
        &[Task::Step(Step::BeginList), Task::Step(Step::Save)],
    )
}

/// A target among others.
fn target<'t>(tasks: &mut Vec<Task<'t>>, e: &'t Expr) -> Result<(), AllocError>
    ensures work { OnOk result ((rules : Rules) (work : Work) → run rules tasks.new.items work ≡ run rules tasks.old.items (taken (with_target rules (view_expr e.now) (put_aside work)))) }
    ensures light { OnOk result (weights tasks.new.items ≤ weights tasks.old.items + (4 + expr_weight (view_expr e.now))) }
{
    plan(
        tasks,
        &[
            Task::Step(Step::Hold),
            Task::Expr(ExprTask::Target, e),
            Task::Step(Step::Take),
        ],
    )
}

/// Targets.
fn each_target<'t>(tasks: &mut Vec<Task<'t>>, es: &'t [Expr]) -> Result<(), AllocError>
    ensures work { OnOk result ((rules : Rules) (work : Work) → run rules tasks.new.items work ≡ run rules tasks.old.items (each_target rules (view_exprs es.now) work)) }
    ensures light { OnOk result (weights tasks.new.items ≤ weights tasks.old.items + exprs_weight (view_exprs es.now)) }
{
    for i in (0..es.len()).rev() {
        target(tasks, &es[i])?;
    }
    Ok(())
}

/// The targets of an assignment.
pub fn targets<'t>(
    facts: &Facts<'_>,
    tasks: &mut Vec<Task<'t>>,
    es: &'t [Expr],
) -> Result<(), AllocError>
    requires { IsInOrder facts.now.scoped.now }
    ensures work { OnOk result ((rules : Rules) (work : Work) → IsReadBy facts.now rules → run rules tasks.new.items work
        ≡ run rules tasks.old.items (with_targets rules (view_exprs es.now) work)) }
    ensures light { OnOk result (weights tasks.new.items < weights tasks.old.items + list_weight (view_exprs es.now)) }
{
    let has_effects = facts.any_effects(es);
    plan(
        tasks,
        &[
            Task::Step(Step::Restore),
            Task::Step(Step::After(has_effects)),
        ],
    )?;
    each_target(tasks, es)?;
    plan(tasks, &[Task::Step(Step::Save)])
}

/// A statement among others: the type of what it returns comes to the end of the innermost list.
fn stat<'t>(tasks: &mut Vec<Task<'t>>, s: &'t Stat) -> Result<(), AllocError>
    ensures work { OnOk result ((rules : Rules) (work : Work) → run rules tasks.new.items work ≡ run rules tasks.old.items (added (with_stat rules (view_stat s.now) work))) }
    ensures light { OnOk result (weights tasks.new.items ≤ weights tasks.old.items + (1 + stat_weight (view_stat s.now))) }
{
    plan(
        tasks,
        &[Task::Stat(StatTask::Whole, s), Task::Step(Step::Add)],
    )
}

/// Statements: the types of what they return come to the end of the innermost list.
fn each_stat<'t>(tasks: &mut Vec<Task<'t>>, stats: &'t [Stat]) -> Result<(), AllocError>
    ensures work { OnOk result ((rules : Rules) (work : Work) → run rules tasks.new.items work ≡ run rules tasks.old.items (each_stat rules (view_stats stats.now) work)) }
    ensures light { OnOk result (weights tasks.new.items ≤ weights tasks.old.items + stats_weight (view_stats stats.now)) }
{
    for i in (0..stats.len()).rev() {
        stat(tasks, &stats[i])?;
    }
    Ok(())
}

/// A block.
pub fn block<'t>(tasks: &mut Vec<Task<'t>>, block: &'t Block) -> Result<(), AllocError>
    ensures work { OnOk result ((rules : Rules) (work : Work) → run rules tasks.new.items work ≡ run rules tasks.old.items (with_block rules (view_block block.now) work)) }
    ensures light { OnOk result (weights tasks.new.items < weights tasks.old.items + block_weight (view_block block.now)) }
{
    plan(
        tasks,
        &[
            Task::Step(Step::Plain(Plain::Never)),
            Task::Step(Step::UnionList),
        ],
    )?;
    each_stat(tasks, block.stats.as_slice())?;
    plan(tasks, &[Task::Step(Step::BeginList)])
}
