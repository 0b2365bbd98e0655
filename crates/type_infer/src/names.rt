//! What names stand for.
ghost use Rattle.std.specs.Prelude.{◌≡◌, OnOk};
ghost use Rattle.luau_tree.specs.View.{view_bind, view_expr};
ghost use Rattle.report_rules.specs.Forward.{property as property_term};
ghost use Rattle.report_rules.specs.Rules.{Rules};
ghost use Rattle.type_normal.specs.Kinds.{text_type};
ghost use Rattle.module_facts.specs.Facts.{IsInOrder};
ghost use Rattle.rule_work.specs.Moves.{valued};
ghost use Rattle.rule_state.specs.Work.{work_of};
ghost use Rattle.infer_plan.specs.Read.{IsReadBy};
ghost use Rattle.infer_plan.specs.Steps.{set_bind, with_name, with_path, with_target_name};

use crate::labels::label_of;
use luau_scope::Use;
use luau_tree::{Bind, Bytes, Expr};
use module_facts::Facts;
use rule_state::RuleState;
use std::alloc::{AllocError, Global};
use type_fields::Plain;

/// What a name stands for.
pub(crate) fn name(
    alloc: Global,
    facts: &Facts<'_>,
    state: &mut RuleState<'_>,
    e: &Expr,
) -> Result<(), AllocError>
    requires { IsInOrder facts.now.scoped.now }
    ensures { OnOk result ((rules : Rules) → IsReadBy facts.now rules → work_of state.new ≡ with_name rules (view_expr e.now) (work_of state.old)) }
{
    match facts.use_of(e) {
        Some(Use::Local(local)) => state.local(*local, facts.loose(*local)),
        Some(Use::Builtin(path)) => {
            let label = label_of(alloc, path)?;
            state.builtin(label)
        }
        Some(Use::Library) => state.plain(Plain::AnyTable),
        Some(Use::Global) => state.plain(Plain::Unknown),
        None => state.plain(Plain::Unknown),
    }
}

/// What a name stands for that is a target.
pub(crate) fn target_name(
    facts: &Facts<'_>,
    state: &mut RuleState<'_>,
    e: &Expr,
) -> Result<(), AllocError>
    requires { IsInOrder facts.now.scoped.now }
    ensures { OnOk result ((rules : Rules) → IsReadBy facts.now rules → work_of state.new ≡ with_target_name rules (view_expr e.now) (work_of state.old)) }
{
    match facts.local_meant(e) {
        Some(local) => state.local(local, facts.loose(local)),
        None => state.plain(Plain::Unknown),
    }
}

/// Whether an expression is a builtin's path.
pub(crate) fn path(facts: &Facts<'_>, state: &mut RuleState<'_>, e: &Expr) -> Result<(), AllocError>
    requires { IsInOrder facts.now.scoped.now }
    ensures { OnOk result ((rules : Rules) → IsReadBy facts.now rules → work_of state.new ≡ with_path rules (view_expr e.now) (work_of state.old)) }
{
    state.builtin_or(facts.use_of(e))
}

/// A local gets the type at hand.
pub(crate) fn set(
    facts: &Facts<'_>,
    state: &mut RuleState<'_>,
    bind: &Bind,
) -> Result<(), AllocError>
    requires { IsInOrder facts.now.scoped.now }
    ensures { OnOk result ((rules : Rules) → IsReadBy facts.now rules → work_of state.new ≡ set_bind rules (view_bind bind.now) (work_of state.old)) }
{
    let local = facts.local_of_bind(bind);
    state.set(local, facts.loose(local))
}

/// A string.
pub(crate) fn text(
    alloc: Global,
    state: &mut RuleState<'_>,
    bytes: &Bytes,
) -> Result<(), AllocError>
    ensures { OnOk result (work_of state.new ≡ valued (text_type bytes.now) (work_of state.old)) }
{
    let label = label_of(alloc, bytes)?;
    state.text(label)
}

/// A field of a value of the type at hand.
pub(crate) fn property(
    alloc: Global,
    state: &mut RuleState<'_>,
    name: &Bytes,
) -> Result<(), AllocError>
    ensures { OnOk result (work_of state.new ≡ valued (property_term name.now (work_of state.old).value) (work_of state.old)) }
{
    let label = label_of(alloc, name)?;
    state.property(&label)
}
