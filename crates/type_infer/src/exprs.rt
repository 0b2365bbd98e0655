//! Steps behind expressions.
ghost use Rattle.std.specs.Prelude.{◌≡◌, OnOk};
ghost use Rattle.luau_tree.specs.View.{view_expr, view_items};
ghost use Rattle.report_rules.specs.Rules.{Rules};
ghost use Rattle.luau_scope.specs.Laws.{AscendFrom};
ghost use Rattle.module_facts.specs.Facts.{IsInOrder};
ghost use Rattle.rule_work.specs.Tables.{rowed};
ghost use Rattle.rule_state.specs.Work.{work_of};
ghost use Rattle.infer_plan.specs.Read.{IsReadBy};
ghost use Rattle.infer_plan.specs.Steps.{called_at, decided, item_names, opened_at};
ghost use Rattle.type_infer.specs.Under.{IsUnder};

use crate::labels::labels_of;
use luau_tree::{Expr, Item};
use module_facts::Facts;
use rule_state::RuleState;
use std::alloc::{AllocError, Global};

/// An expression is seen.
pub(crate) fn open(state: &mut RuleState<'_>, e: &Expr) -> Result<(), AllocError>
    ensures { OnOk result (work_of state.new ≡ opened_at (view_expr e.now) (work_of state.old)) }
{
    state.open(e.id)
}

/// The result of a call.
pub(crate) fn call(facts: &Facts<'_>, state: &mut RuleState<'_>, e: &Expr) -> Result<(), AllocError>
    ensures { OnOk result ((rules : Rules) → IsUnder facts.now (work_of state.old).around rules → work_of state.new ≡ called_at rules (view_expr e.now) (work_of state.old)) }
{
    state.call(e.id)
}

/// What is known where a condition came out true, or false.
pub(crate) fn decide(
    facts: &Facts<'_>,
    state: &mut RuleState<'_>,
    cond: &Expr,
    truth: bool,
) -> Result<(), AllocError>
    requires { IsInOrder facts.now.scoped.now }
    ensures { OnOk result ((rules : Rules) → IsReadBy facts.now rules → work_of state.new ≡ decided rules (view_expr cond.now) truth (work_of state.old)) }
{
    state.refine(facts.scoped, cond, truth)
}

/// The tables that a constructor gives whose named fields have the types of the innermost list.
pub(crate) fn row(
    alloc: Global,
    state: &mut RuleState<'_>,
    items: &[Item],
) -> Result<(), AllocError>
    ensures { OnOk result (work_of state.new ≡ rowed (item_names (view_items items.now)) (work_of state.old)) }
{
    let names = labels_of(alloc, items)?;
    state.row(names)
}
