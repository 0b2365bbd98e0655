//! Writes.
ghost use Rattle.std.specs.Prelude.{◌≡◌, ℕ, Some, OnOk, option_map};
ghost use Rattle.report_rules.specs.Effects.{OfField};
ghost use Rattle.report_rules.specs.Rules.{Rules};
ghost use Rattle.report_rules.specs.TypeMap.{disturbed as disturbed_map, with_field as with_field_map};
ghost use Rattle.module_facts.specs.Targets.{target_meant};
ghost use Rattle.rule_work.specs.Moves.{mapped};
ghost use Rattle.rule_work.specs.Work.{Work};
ghost use Rattle.rule_state.specs.Work.{work_of};
ghost use Rattle.infer_plan.specs.Read.{IsReadBy};
ghost use Rattle.infer_plan.specs.Steps.{store as stored_work, write as written_work};

use crate::labels::label_of;
use luau_tree::{Bytes, LocalId};
use module_facts::{Facts, Target};
use rule_state::RuleState;
use std::alloc::{AllocError, Global};

/// A local gets the type at hand, if the target is one.
pub(crate) fn store(
    facts: &Facts<'_>,
    state: &mut RuleState<'_>,
    target: Target<'_>,
) -> Result<(), AllocError>
    ensures { OnOk result ((rules : Rules) → IsReadBy facts.now rules → work_of state.new ≡ stored_work rules (target_meant target.entry) (work_of state.old)) }
{
    match target {
        Target::Local(local) => state.set(local, facts.loose(local)),
        Target::Global => Ok(()),
        Target::Field(_, _) => Ok(()),
        Target::Element => Ok(()),
    }
}

/// Tables may have changed by a write.
pub(crate) fn disturb(
    alloc: Global,
    state: &mut RuleState<'_>,
    target: Target<'_>,
) -> Result<(), AllocError>
    ensures { OnOk result (work_of state.new ≡ mapped (disturbed_map (target_meant target.entry)) (work_of state.old)) }
{
    match target {
        Target::Local(_) => Ok(()),
        Target::Global => Ok(()),
        Target::Field(_, name) => {
            let label = label_of(alloc, name)?;
            state.disturb(label)
        }
        Target::Element => state.after(true),
    }
}

/// Each table of a local has the type at hand in a field that was written, if the local is known.
fn with_field(
    alloc: Global,
    facts: &Facts<'_>,
    state: &mut RuleState<'_>,
    local: LocalId,
    name: &Bytes,
) -> Result<(), AllocError>
    ensures { OnOk result ((rules : Rules) → IsReadBy facts.now rules → work_of state.new ≡ mapped (with_field_map rules (OfField (Some local.0) name.now) (work_of state.old).value) (work_of state.old)) }
{
    if facts.loose(local) {
        return Ok(());
    }
    let label = label_of(alloc, name)?;
    state.hold()?;
    state.with_field(local, &label)?;
    state.set(local, false)?;
    state.take();
    Ok(())
}

/// What is known of the local whose field was written, alone.
fn field(
    alloc: Global,
    facts: &Facts<'_>,
    state: &mut RuleState<'_>,
    target: Target<'_>,
) -> Result<(), AllocError>
    ensures { OnOk result ((rules : Rules) → IsReadBy facts.now rules → work_of state.new ≡ mapped (with_field_map rules (target_meant target.entry) (work_of state.old).value) (work_of state.old)) }
{
    match target {
        Target::Local(_) => Ok(()),
        Target::Global => Ok(()),
        Target::Field(base, name) => match base {
            Some(local) => with_field(alloc, facts, state, local, name),
            None => Ok(()),
        },
        Target::Element => Ok(()),
    }
}

/// A write of the type at hand that stands alone.
pub(crate) fn write(
    alloc: Global,
    facts: &Facts<'_>,
    state: &mut RuleState<'_>,
    target: Target<'_>,
) -> Result<(), AllocError>
    ensures { OnOk result ((rules : Rules) → IsReadBy facts.now rules → work_of state.new ≡ written_work rules (target_meant target.entry) (work_of state.old)) }
{
    store(facts, state, target)?;
    disturb(alloc, state, target)?;
    field(alloc, facts, state, target)
}
