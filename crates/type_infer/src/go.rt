//! One task.
ghost use Rattle.std.specs.Prelude.{◌≡◌, ◌<◌, ◌+◌, OnOk};
ghost use Rattle.report_rules.specs.Rules.{Rules};
ghost use Rattle.module_facts.specs.Facts.{IsInOrder};
ghost use Rattle.rule_state.specs.Work.{work_of};
ghost use Rattle.infer_plan.specs.Weights.{weight, weights};
ghost use Rattle.infer_plan.specs.declared.task.Task.TheVariants as task;
ghost use Rattle.type_infer.specs.Under.{IsUnder, Went};

use crate::bodies::{enter, head, literal, see};
use crate::exprs::{call, decide, open, row};
use crate::names::{name, path, property, set, target_name, text};
use crate::steps::step;
use crate::writes::{disturb, store, write};
use infer_plan::{
    BodyTask, ExprTask, ListTask, NameTask, StatTask, Task, WriteTask, block, body, expr, form,
    stat, target, targets, values,
};
use luau_tree::{Body, Bytes, Expr, Stat};
use module_facts::{Facts, Target};
use rule_state::RuleState;
use std::alloc::{AllocError, Global};

/// What is done with an expression.
fn go_expr<'t>(
    alloc: Global,
    facts: &Facts<'_>,
    state: &mut RuleState<'_>,
    tasks: &mut Vec<Task<'t>>,
    kind: ExprTask,
    e: &'t Expr,
) -> Result<(), AllocError>
    requires { IsInOrder facts.now.scoped.now }
    ensures work { OnOk result ((rules : Rules) → IsUnder facts.now (work_of state.old).around rules → Went rules (task.Expr kind e.entry) tasks.old.items tasks.new.items (work_of state.old) (work_of state.new)) }
    ensures light { OnOk result (weights tasks.new.items < weights tasks.old.items + weight (task.Expr kind e.entry)) }
{
    match kind {
        ExprTask::Whole => expr(facts, tasks, e),
        ExprTask::Form => form(facts, tasks, e),
        ExprTask::Target => target(facts, tasks, e),
        ExprTask::Open => open(state, e),
        ExprTask::Name => name(alloc, facts, state, e),
        ExprTask::TargetName => target_name(facts, state, e),
        ExprTask::Path => path(facts, state, e),
        ExprTask::Call => call(facts, state, e),
        ExprTask::WhenTrue => decide(facts, state, e, true),
        ExprTask::WhenFalse => decide(facts, state, e, false),
    }
}

/// What is done with a list.
fn go_list<'t>(
    facts: &Facts<'_>,
    state: &mut RuleState<'_>,
    tasks: &mut Vec<Task<'t>>,
    kind: ListTask,
    es: &'t [Expr],
) -> Result<(), AllocError>
    requires { IsInOrder facts.now.scoped.now }
    ensures work { OnOk result ((rules : Rules) → IsUnder facts.now (work_of state.old).around rules → Went rules (task.Exprs kind es.entry) tasks.old.items tasks.new.items (work_of state.old) (work_of state.new)) }
    ensures light { OnOk result (weights tasks.new.items < weights tasks.old.items + weight (task.Exprs kind es.entry)) }
{
    match kind {
        ListTask::Values => values(facts, tasks, es),
        ListTask::Targets => targets(facts, tasks, es),
    }
}

/// What is done with a function's body.
fn go_body<'t>(
    alloc: Global,
    facts: &Facts<'_>,
    state: &mut RuleState<'_>,
    tasks: &mut Vec<Task<'t>>,
    kind: BodyTask,
    b: &'t Body,
) -> Result<(), AllocError>
    requires { IsInOrder facts.now.scoped.now }
    ensures work { OnOk result ((rules : Rules) → IsUnder facts.now (work_of state.old).around rules → Went rules (task.Body kind b.entry) tasks.old.items tasks.new.items (work_of state.old) (work_of state.new)) }
    ensures light { OnOk result (weights tasks.new.items < weights tasks.old.items + weight (task.Body kind b.entry)) }
{
    match kind {
        BodyTask::Whole => body(tasks, b),
        BodyTask::See => see(state, b),
        BodyTask::Enter => enter(alloc, facts, state, b),
        BodyTask::Literal => literal(state, b),
    }
}

/// What is done with a statement.
fn go_stat<'t>(
    alloc: Global,
    facts: &Facts<'_>,
    state: &mut RuleState<'_>,
    tasks: &mut Vec<Task<'t>>,
    kind: StatTask,
    s: &'t Stat,
) -> Result<(), AllocError>
    requires { IsInOrder facts.now.scoped.now }
    ensures work { OnOk result ((rules : Rules) → IsUnder facts.now (work_of state.old).around rules → Went rules (task.Stat kind s.entry) tasks.old.items tasks.new.items (work_of state.old) (work_of state.new)) }
    ensures light { OnOk result (weights tasks.new.items < weights tasks.old.items + weight (task.Stat kind s.entry)) }
{
    match kind {
        StatTask::Whole => stat(facts, tasks, s),
        StatTask::Head => head(alloc, facts, state, s),
    }
}

/// What is done with a name.
fn go_name<'t>(
    alloc: Global,
    facts: &Facts<'_>,
    state: &mut RuleState<'_>,
    tasks: &mut Vec<Task<'t>>,
    kind: NameTask,
    bytes: &'t Bytes,
) -> Result<(), AllocError>
    requires { IsInOrder facts.now.scoped.now }
    ensures work { OnOk result ((rules : Rules) → IsUnder facts.now (work_of state.old).around rules → Went rules (task.Name kind bytes.entry) tasks.old.items tasks.new.items (work_of state.old) (work_of state.new)) }
    ensures light { OnOk result (weights tasks.new.items < weights tasks.old.items + weight (task.Name kind bytes.entry)) }
{
    match kind {
        NameTask::Text => text(alloc, state, bytes),
        NameTask::Property => property(alloc, state, bytes),
    }
}

/// What is done with a target.
fn go_write<'t>(
    alloc: Global,
    facts: &Facts<'_>,
    state: &mut RuleState<'_>,
    tasks: &mut Vec<Task<'t>>,
    kind: WriteTask,
    written: Target<'t>,
) -> Result<(), AllocError>
    requires { IsInOrder facts.now.scoped.now }
    ensures work { OnOk result ((rules : Rules) → IsUnder facts.now (work_of state.old).around rules → Went rules (task.Write kind written.entry) tasks.old.items tasks.new.items (work_of state.old) (work_of state.new)) }
    ensures light { OnOk result (weights tasks.new.items < weights tasks.old.items + weight (task.Write kind written.entry)) }
{
    match kind {
        WriteTask::Write => write(alloc, facts, state, written),
        WriteTask::Store => store(facts, state, written),
        WriteTask::Disturb => disturb(alloc, state, written),
    }
}

/// One task: a part is put in the place of its parts, and a step is done.
pub(crate) fn go<'t>(
    alloc: Global,
    facts: &Facts<'_>,
    state: &mut RuleState<'_>,
    tasks: &mut Vec<Task<'t>>,
    task: Task<'t>,
) -> Result<(), AllocError>
    requires { IsInOrder facts.now.scoped.now }
    ensures work { OnOk result ((rules : Rules) → IsUnder facts.now (work_of state.old).around rules → Went rules task.entry tasks.old.items tasks.new.items (work_of state.old) (work_of state.new)) }
    ensures light { OnOk result (weights tasks.new.items < weights tasks.old.items + weight task.entry) }
{
    match task {
        Task::Step(kind) => step(state, kind),
        Task::Expr(kind, e) => go_expr(alloc, facts, state, tasks, kind, e),
        Task::Exprs(kind, es) => go_list(facts, state, tasks, kind, es),
        Task::Row(items) => row(alloc, state, items),
        Task::Body(kind, b) => go_body(alloc, facts, state, tasks, kind, b),
        Task::Stat(kind, s) => go_stat(alloc, facts, state, tasks, kind, s),
        Task::Block(b) => block(tasks, b),
        Task::Set(bind) => set(facts, state, bind),
        Task::Name(kind, bytes) => go_name(alloc, facts, state, tasks, kind, bytes),
        Task::Write(kind, written) => go_write(alloc, facts, state, tasks, kind, written),
    }
}
