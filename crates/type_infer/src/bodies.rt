//! The bodies of functions, and loops.
ghost use Rattle.std.specs.Prelude.{◌≡◌, OnOk};
ghost use Rattle.luau_tree.specs.View.{view_body, view_stat};
ghost use Rattle.report_rules.specs.Forward.{literal_type};
ghost use Rattle.report_rules.specs.Rules.{Rules};
ghost use Rattle.module_facts.specs.Facts.{IsInOrder};
ghost use Rattle.rule_work.specs.Moves.{valued};
ghost use Rattle.rule_state.specs.Work.{work_of};
ghost use Rattle.infer_plan.specs.Read.{IsReadBy};
ghost use Rattle.infer_plan.specs.Steps.{body_seen, entered, headed_by};

use luau_tree::{Body, Stat};
use module_facts::Facts;
use rule_state::RuleState;
use std::alloc::{AllocError, Global};

/// A body is seen.
pub(crate) fn see(state: &mut RuleState<'_>, body: &Body) -> Result<(), AllocError>
    ensures { OnOk result (work_of state.new ≡ body_seen (view_body body.now) (work_of state.old)) }
{
    state.see_body(body.id)
}

/// A function's body is entered.
pub(crate) fn enter(
    alloc: Global,
    facts: &Facts<'_>,
    state: &mut RuleState<'_>,
    body: &Body,
) -> Result<(), AllocError>
    requires { IsInOrder facts.now.scoped.now }
    ensures { OnOk result ((rules : Rules) → IsReadBy facts.now rules → work_of state.new ≡ entered rules (view_body body.now) (work_of state.old)) }
{
    let params = facts.locals_of_binds(alloc, body.params.as_slice())?;
    state.enter(params.as_slice())
}

/// The type of a function literal, or of a function statement.
pub(crate) fn literal(state: &mut RuleState<'_>, body: &Body) -> Result<(), AllocError>
    ensures { OnOk result ((rules : Rules) → rules.reading.home ≡ (work_of state.old).around.home → work_of state.new ≡ valued (literal_type rules (view_body body.now)) (work_of state.old)) }
{
    state.literal(body.id)
}

/// A loop is entered.
pub(crate) fn head(
    alloc: Global,
    facts: &Facts<'_>,
    state: &mut RuleState<'_>,
    s: &Stat,
) -> Result<(), AllocError>
    requires { IsInOrder facts.now.scoped.now }
    ensures { OnOk result ((rules : Rules) → IsReadBy facts.now rules → work_of state.new ≡ headed_by rules (view_stat s.now) (work_of state.old)) }
{
    let touched = facts.touched(alloc, s)?;
    let stirs = facts.stirs(s);
    state.head(touched.as_slice(), stirs)
}
