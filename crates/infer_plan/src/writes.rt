//! Declarations and assignments.
ghost use Rattle.std.specs.Prelude.{◌≡◌, ◌≤◌, ◌+◌, ℕ, map, OnOk};
ghost use Rattle.luau_tree.specs.declared.position.Span.{Span};
ghost use Rattle.luau_tree.specs.Tree as plain;
ghost use Rattle.luau_tree.specs.View.{view_bind, view_binds, view_exprs};
ghost use Rattle.report_rules.specs.Rules.{Rules};
ghost use Rattle.report_rules.specs.Effects as syntax;
ghost use Rattle.module_facts.specs.Facts.{IsInOrder};
ghost use Rattle.module_facts.specs.Targets.{target_meant};
ghost use Rattle.rule_work.specs.Work.{Work};
ghost use Rattle.infer_plan.specs.Read.{IsReadBy};
ghost use Rattle.infer_plan.specs.Run.{run};
ghost use Rattle.infer_plan.specs.Steps.{declared_one, each_declared, each_disturbed, each_stored, each_written, stored_one, with_stat, written_one};
ghost use Rattle.infer_plan.specs.Weights.{declared_weight, stat_kind_weight, weights, written_weight};

use crate::plan::plan;
use crate::task::{ListTask, Step, Task, WriteTask};
use luau_tree::{Bind, Expr};
use module_facts::{Facts, Target, last_expands};
use std::alloc::AllocError;
use type_fields::Plain;

/// A declared name, which gets the first type that is left of the innermost list.
fn declared<'t>(
    tasks: &mut Vec<Task<'t>>,
    bind: &'t Bind,
    expanding: bool,
) -> Result<(), AllocError>
    ensures work { OnOk result ((rules : Rules) (work : Work) → run rules tasks.new.items work ≡ run rules tasks.old.items (declared_one rules expanding (view_bind bind.now) work)) }
    ensures light { OnOk result (weights tasks.new.items ≤ weights tasks.old.items + 4) }
{
    plan(
        tasks,
        &[
            Task::Step(Step::Hold),
            Task::Step(Step::TakeFirst(expanding)),
            Task::Set(bind),
            Task::Step(Step::Take),
        ],
    )
}

fn each_declared<'t>(
    tasks: &mut Vec<Task<'t>>,
    binds: &'t [Bind],
    expanding: bool,
) -> Result<(), AllocError>
    ensures work { OnOk result ((rules : Rules) (work : Work) → run rules tasks.new.items work ≡ run rules tasks.old.items (each_declared rules expanding (view_binds binds.now) work)) }
    ensures light { OnOk result (weights tasks.new.items ≤ weights tasks.old.items + declared_weight (view_binds binds.now)) }
{
    for i in (0..binds.len()).rev() {
        declared(tasks, &binds[i], expanding)?;
    }
    Ok(())
}

/// `local a, b = x, y`
pub(crate) fn local_stat<'t>(
    tasks: &mut Vec<Task<'t>>,
    binds: &'t [Bind],
    values: &'t [Expr],
) -> Result<(), AllocError>
    ensures work { OnOk result ((rules : Rules) (span : Span) (work : Work) → run rules tasks.new.items work
        ≡ run rules tasks.old.items (with_stat rules (plain.the_stat span (plain.Local (view_binds binds.now) (view_exprs values.now))) work)) }
    ensures light { OnOk result (weights tasks.new.items ≤ weights tasks.old.items + stat_kind_weight (plain.Local (view_binds binds.now) (view_exprs values.now))) }
{
    let expanding = last_expands(values);
    plan(
        tasks,
        &[
            Task::Step(Step::EndList),
            Task::Step(Step::Plain(Plain::Never)),
        ],
    )?;
    each_declared(tasks, binds, expanding)?;
    plan(tasks, &[Task::Exprs(ListTask::Values, values)])
}

/// A target among others, which gets the first type that is left of the innermost list.
fn stored<'t>(
    tasks: &mut Vec<Task<'t>>,
    target: Target<'t>,
    expanding: bool,
) -> Result<(), AllocError>
    ensures work { OnOk result ((rules : Rules) (work : Work) → run rules tasks.new.items work ≡ run rules tasks.old.items (stored_one rules expanding (target_meant target.entry) work)) }
    ensures light { OnOk result (weights tasks.new.items ≤ weights tasks.old.items + 4) }
{
    plan(
        tasks,
        &[
            Task::Step(Step::Hold),
            Task::Step(Step::TakeFirst(expanding)),
            Task::Write(WriteTask::Store, target),
            Task::Step(Step::Take),
        ],
    )
}

fn each_stored<'t>(
    facts: &Facts<'_>,
    tasks: &mut Vec<Task<'t>>,
    targets: &'t [Expr],
    expanding: bool,
) -> Result<(), AllocError>
    requires { IsInOrder facts.now.scoped.now }
    ensures work { OnOk result ((rules : Rules) (work : Work) → IsReadBy facts.now rules → run rules tasks.new.items work
        ≡ run rules tasks.old.items (each_stored rules expanding (syntax.targets_of rules (view_exprs targets.now)) work)) }
    ensures light { OnOk result (weights tasks.new.items ≤ weights tasks.old.items + written_weight (view_exprs targets.now)) }
{
    for i in (0..targets.len()).rev() {
        stored(tasks, facts.target_of(&targets[i]), expanding)?;
    }
    Ok(())
}

fn each_disturbed<'t>(
    facts: &Facts<'_>,
    tasks: &mut Vec<Task<'t>>,
    targets: &'t [Expr],
) -> Result<(), AllocError>
    requires { IsInOrder facts.now.scoped.now }
    ensures work { OnOk result ((rules : Rules) (work : Work) → IsReadBy facts.now rules → run rules tasks.new.items work
        ≡ run rules tasks.old.items (each_disturbed (syntax.targets_of rules (view_exprs targets.now)) work)) }
    ensures light { OnOk result (weights tasks.new.items ≤ weights tasks.old.items + written_weight (view_exprs targets.now)) }
{
    for i in (0..targets.len()).rev() {
        let target = facts.target_of(&targets[i]);
        plan(tasks, &[Task::Write(WriteTask::Disturb, target)])?;
    }
    Ok(())
}

/// A target that stands alone, which gets the first type of the innermost list.
fn written<'t>(
    tasks: &mut Vec<Task<'t>>,
    target: Target<'t>,
    expanding: bool,
) -> Result<(), AllocError>
    ensures work { OnOk result ((rules : Rules) (work : Work) → run rules tasks.new.items work ≡ run rules tasks.old.items (written_one rules expanding (target_meant target.entry) work)) }
    ensures light { OnOk result (weights tasks.new.items ≤ weights tasks.old.items + 4) }
{
    plan(
        tasks,
        &[
            Task::Step(Step::Hold),
            Task::Step(Step::TakeFirst(expanding)),
            Task::Write(WriteTask::Write, target),
            Task::Step(Step::Take),
        ],
    )
}

fn each_written<'t>(
    facts: &Facts<'_>,
    tasks: &mut Vec<Task<'t>>,
    targets: &'t [Expr],
    expanding: bool,
) -> Result<(), AllocError>
    requires { IsInOrder facts.now.scoped.now }
    ensures work { OnOk result ((rules : Rules) (work : Work) → IsReadBy facts.now rules → run rules tasks.new.items work
        ≡ run rules tasks.old.items (each_written rules expanding (syntax.targets_of rules (view_exprs targets.now)) work)) }
    ensures light { OnOk result (weights tasks.new.items ≤ weights tasks.old.items + (written_weight (view_exprs targets.now) + written_weight (view_exprs targets.now))) }
{
    if targets.len() == 1 {
        return written(tasks, facts.target_of(&targets[0]), expanding);
    }
    each_disturbed(facts, tasks, targets)?;
    each_stored(facts, tasks, targets, expanding)
}

/// `a, b.c = x, y`
pub(crate) fn assign<'t>(
    facts: &Facts<'_>,
    tasks: &mut Vec<Task<'t>>,
    targets: &'t [Expr],
    values: &'t [Expr],
) -> Result<(), AllocError>
    requires { IsInOrder facts.now.scoped.now }
    ensures work { OnOk result ((rules : Rules) (span : Span) (work : Work) → IsReadBy facts.now rules → run rules tasks.new.items work
        ≡ run rules tasks.old.items (with_stat rules (plain.the_stat span (plain.Assign (view_exprs targets.now) (view_exprs values.now))) work)) }
    ensures light { OnOk result (weights tasks.new.items ≤ weights tasks.old.items + stat_kind_weight (plain.Assign (view_exprs targets.now) (view_exprs values.now))) }
{
    let expanding = last_expands(values);
    plan(
        tasks,
        &[
            Task::Step(Step::EndList),
            Task::Step(Step::Plain(Plain::Never)),
        ],
    )?;
    each_written(facts, tasks, targets, expanding)?;
    plan(
        tasks,
        &[
            Task::Exprs(ListTask::Targets, targets),
            Task::Exprs(ListTask::Values, values),
        ],
    )
}
