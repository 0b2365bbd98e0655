//! The walk over a block.
ghost use Rattle.std.specs.Prelude.{◌≡◌, OnOk};
ghost use Rattle.luau_tree.specs.View.{view_block};
ghost use Rattle.report_rules.specs.Rules.{Rules};
ghost use Rattle.module_facts.specs.Facts.{IsInOrder};
ghost use Rattle.rule_state.specs.Work.{work_of};
ghost use Rattle.infer_plan.specs.Steps.{with_block};
ghost use Rattle.type_infer.specs.Summary.{summarized};
ghost use Rattle.type_infer.specs.Under.{IsUnder};

use crate::go::go;
use infer_plan::Task;
use luau_tree::Block;
use module_facts::Facts;
use rule_state::RuleState;
use std::alloc::{AllocError, Global};
use type_fields::Plain;

/// A block is gone through. The type of what it returns is at hand then.
pub(crate) fn walk(
    alloc: Global,
    facts: &Facts<'_>,
    state: &mut RuleState<'_>,
    block: &Block,
) -> Result<(), AllocError>
    requires { IsInOrder facts.now.scoped.now }
    ensures { OnOk result ((rules : Rules) → IsUnder facts.now (work_of state.old).around rules → work_of state.new ≡ with_block rules (view_block block.now) (work_of state.old)) }
{
    let mut tasks = Vec::new(alloc);
    tasks.push(Task::Block(block))?;
    while let Some(task) = tasks.pop() {
        go(alloc, facts, state, &mut tasks, task)?;
    }
    Ok(())
}

/// What a module gives whose own block was gone through: what it returns, and nil where it may end.
pub(crate) fn summarize(state: &mut RuleState<'_>) -> Result<(), AllocError>
    ensures { OnOk result (work_of state.new ≡ summarized (work_of state.old)) }
{
    state.hold()?;
    state.plain(Plain::Nil)?;
    state.live_only()?;
    state.union_held()?;
    state.widen()?;
    state.cut_up()
}
