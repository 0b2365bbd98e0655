//! Statements by their forms.
ghost use Rattle.std.specs.Prelude.{◌≡◌, ◌<◌, ◌+◌, OnOk};
ghost use Rattle.luau_tree.specs.View.{view_stat};
ghost use Rattle.report_rules.specs.Rules.{Rules};
ghost use Rattle.module_facts.specs.Facts.{IsInOrder};
ghost use Rattle.rule_work.specs.Work.{Work};
ghost use Rattle.infer_plan.specs.Read.{IsReadBy};
ghost use Rattle.infer_plan.specs.Run.{run};
ghost use Rattle.infer_plan.specs.Steps.{with_stat};
ghost use Rattle.infer_plan.specs.Weights.{stat_weight, weights};

use crate::branches::if_stat;
use crate::stats::{
    call_stat, compound, do_block, function_or_method, iteration, leaving, local_function,
    numeric_loop, repeat_loop, return_stat, type_stat, while_loop,
};
use crate::task::Task;
use crate::writes::{assign, local_stat};
use luau_tree::{Stat, StatKind};
use module_facts::Facts;
use std::alloc::AllocError;

/// A statement.
pub fn stat<'t>(facts: &Facts<'_>, tasks: &mut Vec<Task<'t>>, s: &'t Stat) -> Result<(), AllocError>
    requires { IsInOrder facts.now.scoped.now }
    ensures work { OnOk result ((rules : Rules) (work : Work) → IsReadBy facts.now rules → run rules tasks.new.items work
        ≡ run rules tasks.old.items (with_stat rules (view_stat s.now) work)) }
    ensures light { OnOk result (weights tasks.new.items < weights tasks.old.items + stat_weight (view_stat s.now)) }
{
    match &s.kind {
        StatKind::Assign { targets, values } => assign(
            facts,
            tasks,
            targets.as_slice(),
            values.as_slice(),
        ),
        StatKind::Compound { target, op, value } => compound(
            tasks,
            target,
            facts.target_of(target),
            *op,
            value,
        ),
        StatKind::CallStat(call) => call_stat(tasks, call),
        StatKind::Do(body) => do_block(tasks, body),
        StatKind::While { cond, body } => while_loop(tasks, s, cond, body),
        StatKind::Repeat { body, cond } => repeat_loop(tasks, s, body, cond),
        StatKind::If { arms, last } => if_stat(tasks, arms.as_slice(), last),
        StatKind::NumFor {
            bind,
            from,
            to,
            step,
            body,
        } => numeric_loop(tasks, s, bind, from, to, step, body),
        StatKind::GenFor { values, body, .. } => iteration(tasks, s, values.as_slice(), body),
        StatKind::Function { path, method, body } => {
            let target = facts.function_target(path, method);
            function_or_method(tasks, path, target, method, body)
        }
        StatKind::LocalFunction { name, body } => local_function(tasks, name, body),
        StatKind::Local { binds, values } => local_stat(tasks, binds.as_slice(), values.as_slice()),
        StatKind::Return(values) => return_stat(tasks, values.as_slice()),
        StatKind::Break => leaving(tasks),
        StatKind::Continue => leaving(tasks),
        StatKind::TypeAlias { .. } => type_stat(tasks),
        StatKind::TypeFunction { .. } => type_stat(tasks),
    }
}
