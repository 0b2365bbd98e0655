//! Table constructors.
ghost use Rattle.std.specs.Prelude.{◌≡◌, ◌≤◌, ◌+◌, ◌||◌, not, ℕ, OnOk};
ghost use Rattle.luau_tree.specs.Tree as plain;
ghost use Rattle.luau_tree.specs.View.{view_expr, view_item, view_items};
ghost use Rattle.report_rules.specs.Rules.{Rules};
ghost use Rattle.report_rules.specs.Effects.{effects_of_item};
ghost use Rattle.report_rules.specs.Forward as forward;
ghost use Rattle.module_facts.specs.Facts.{IsInOrder};
ghost use Rattle.rule_work.specs.Work.{Work};
ghost use Rattle.infer_plan.specs.Read.{IsReadBy};
ghost use Rattle.infer_plan.specs.Run.{run};
ghost use Rattle.infer_plan.specs.Steps.{each_item, is_other_item, item_names, made_table, with_entry, with_item, with_kind};
ghost use Rattle.infer_plan.specs.Weights.{entry_weight, items_weight, kind_weight, weights};

use crate::exprs::name_of_key;
use crate::plan::plan;
use crate::task::{ExprTask, Step, Task};
use luau_tree::{Expr, ExprKind, Item};
use module_facts::Facts;
use std::alloc::AllocError;
use type_fields::Plain;

/// Whether a key is neither a string nor a numeral.
#[tactic(auto, unfolding(luau_tree::specs::View::view_expr))]
fn is_other_key(key: &Expr) -> bool
    ensures { result ≡ not (forward.is_named_key (view_expr key.now)) }
{
    match &key.kind {
        ExprKind::Str(_) | ExprKind::Number(_) => false,
        _ => true,
    }
}

/// Whether a key of an item is neither a string nor a numeral.
fn item_has_other_key(item: &Item) -> bool
    ensures { result ≡ is_other_item (view_item item.now) }
{
    match item {
        Item::Field { .. } => false,
        Item::Keyed { key, .. } => is_other_key(key),
        Item::Plain(_) => false,
    }
}

/// Whether a key of some item is neither a string nor a numeral.
fn has_other_key(items: &[Item]) -> bool
    ensures { result ≡ forward.has_other_key (view_items items.now) }
{
    for item in items {
        if item_has_other_key(item) {
            return true;
        }
    }
    false
}

/// The value of an item, with its key.
fn entry<'t>(
    tasks: &mut Vec<Task<'t>>,
    item: &'t Item,
    effects_later: bool,
) -> Result<(), AllocError>
    ensures work { OnOk result ((rules : Rules) (work : Work) → run rules tasks.new.items work
        ≡ run rules tasks.old.items (with_entry rules effects_later (view_item item.now) work)) }
    ensures light { OnOk result (weights tasks.new.items ≤ weights tasks.old.items + entry_weight (view_item item.now)) }
{
    match item {
        Item::Field { value, .. } => plan(
            tasks,
            &[
                Task::Expr(ExprTask::Whole, value),
                Task::Step(Step::Keep(effects_later)),
                Task::Step(Step::Add),
            ],
        ),
        Item::Keyed { key, value } => keyed(tasks, key, value, effects_later),
        Item::Plain(value) => plan(tasks, &[Task::Expr(ExprTask::Whole, value)]),
    }
}

/// A value with a key.
fn keyed<'t>(
    tasks: &mut Vec<Task<'t>>,
    key: &'t Expr,
    value: &'t Expr,
    effects_later: bool,
) -> Result<(), AllocError>
    ensures work { OnOk result ((rules : Rules) (work : Work) → run rules tasks.new.items work
        ≡ run rules tasks.old.items (with_entry rules effects_later (plain.Keyed (view_expr key.now) (view_expr value.now)) work)) }
    ensures light { OnOk result (weights tasks.new.items ≤ weights tasks.old.items + entry_weight (plain.Keyed (view_expr key.now) (view_expr value.now))) }
{
    match name_of_key(key) {
        Some(_) => plan(
            tasks,
            &[
                Task::Expr(ExprTask::Whole, key),
                Task::Expr(ExprTask::Whole, value),
                Task::Step(Step::Keep(effects_later)),
                Task::Step(Step::Add),
            ],
        ),
        None => plan(
            tasks,
            &[
                Task::Expr(ExprTask::Whole, key),
                Task::Expr(ExprTask::Whole, value),
                Task::Step(Step::Keep(effects_later)),
            ],
        ),
    }
}

/// An item: the type of its value comes to the end of the innermost list if it has a name.
fn item<'t>(
    tasks: &mut Vec<Task<'t>>,
    item: &'t Item,
    effects_later: bool,
    has_effects: bool,
) -> Result<(), AllocError>
    ensures work { OnOk result ((rules : Rules) (work : Work) → has_effects ≡ effects_of_item rules (view_item item.now)
        → run rules tasks.new.items work ≡ run rules tasks.old.items (with_item rules effects_later (view_item item.now) work)) }
    ensures light { OnOk result (weights tasks.new.items ≤ weights tasks.old.items + (5 + entry_weight (view_item item.now))) }
{
    plan(
        tasks,
        &[
            Task::Step(Step::Take),
            Task::Step(Step::Restore),
            Task::Step(Step::After(has_effects)),
        ],
    )?;
    entry(tasks, item, effects_later)?;
    plan(tasks, &[Task::Step(Step::Save), Task::Step(Step::Hold)])
}

/// Items. Those that stand last are put there first, and so it is known of each whether one behind it has effects.
fn each_item<'t>(
    facts: &Facts<'_>,
    tasks: &mut Vec<Task<'t>>,
    items: &'t [Item],
) -> Result<(), AllocError>
    requires { IsInOrder facts.now.scoped.now }
    ensures work { OnOk result ((rules : Rules) (work : Work) → IsReadBy facts.now rules → run rules tasks.new.items work
        ≡ run rules tasks.old.items (each_item rules (view_items items.now) work)) }
    ensures light { OnOk result (weights tasks.new.items ≤ weights tasks.old.items + items_weight (view_items items.now)) }
{
    let mut later = false;
    for i in (0..items.len()).rev() {
        let one = &items[i];
        let has_effects = facts.item_has_effects(one);
        item(tasks, one, later, has_effects)?;
        later |= has_effects;
    }
    Ok(())
}

/// The type of a table constructor, whose named fields have the types of the innermost list.
fn table_end<'t>(tasks: &mut Vec<Task<'t>>, items: &'t [Item]) -> Result<(), AllocError>
    ensures work { OnOk result ((rules : Rules) (work : Work) → run rules tasks.new.items work
        ≡ run rules tasks.old.items (made_table (forward.has_other_key (view_items items.now)) (item_names (view_items items.now)) work)) }
    ensures light { OnOk result (weights tasks.new.items ≤ weights tasks.old.items + 3) }
{
    if has_other_key(items) {
        plan(
            tasks,
            &[
                Task::Step(Step::EndList),
                Task::Step(Step::Restore),
                Task::Step(Step::Plain(Plain::AnyTable)),
            ],
        )
    } else {
        plan(tasks, &[Task::Row(items), Task::Step(Step::Restore)])
    }
}

/// A table constructor.
pub(crate) fn table<'t>(
    facts: &Facts<'_>,
    tasks: &mut Vec<Task<'t>>,
    items: &'t [Item],
) -> Result<(), AllocError>
    requires { IsInOrder facts.now.scoped.now }
    ensures work { OnOk result ((rules : Rules) (id : ℕ) (work : Work) → IsReadBy facts.now rules → run rules tasks.new.items work
        ≡ run rules tasks.old.items (with_kind rules id (plain.TableExpr (view_items items.now)) work)) }
    ensures light { OnOk result (weights tasks.new.items ≤ weights tasks.old.items + kind_weight (plain.TableExpr (view_items items.now))) }
{
    table_end(tasks, items)?;
    each_item(facts, tasks, items)?;
    plan(
        tasks,
        &[Task::Step(Step::BeginList), Task::Step(Step::Save)],
    )
}
