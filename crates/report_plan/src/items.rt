//! Table constructors. What comes last in the text is done first.
ghost use Rattle.std.specs.Prelude.{◌≡◌, ℕ, OnOk};
ghost use Rattle.luau_tree.specs.declared.position.Span.{Span};
ghost use Rattle.luau_tree.specs.Tree as plain;
ghost use Rattle.luau_tree.specs.View.{view_expr, view_item, view_items};
ghost use Rattle.report_work.specs.Checks.{Check as PlainCheck};
ghost use Rattle.report_work.specs.Expressions as listed;
ghost use Rattle.report_work.specs.Found.{found_item, found_parts_as};
ghost use Rattle.report_plan.specs.Puts.{Puts};
ghost use Rattle.report_plan.specs.Weights.{item_weight, items_weight, kind_weight};

use crate::check::Check;
use crate::plan::plan;
use crate::task::{AnswerStep, AskStep, BehindStep, CheckTask, ExprTask, Task};
use luau_tree::{Expr, Item};
use std::alloc::AllocError;

/// A value with a key, both in an item.
fn keyed<'t>(
    tasks: &mut Vec<Task<'t>>,
    item: &'t Item,
    key: &'t Expr,
    value: &'t Expr,
) -> Result<(), AllocError>
    ensures { OnOk result (view_item item.now ≡ plain.Keyed (view_expr key.now) (view_expr value.now)
        → Puts tasks.old.items tasks.new.items (λ rules seen. listed.before_item rules seen (view_item item.now)) (item_weight (view_item item.now))) }
{
    plan(
        tasks,
        &[
            Task::Ask(AskStep::Never),
            Task::Behind(BehindStep::Begin),
            Task::Ask(AskStep::Never),
            Task::Expr(ExprTask::Whole, value),
            Task::Answer(AnswerStep::Start),
            Task::Check(CheckTask::Before, Check::Unchecked, key),
            Task::Answer(AnswerStep::Spread),
            Task::Behind(BehindStep::Restore),
            Task::Item(item),
        ],
    )
}

/// An item stands before what is behind.
fn item<'t>(tasks: &mut Vec<Task<'t>>, item: &'t Item) -> Result<(), AllocError>
    ensures { OnOk result (Puts tasks.old.items tasks.new.items (λ rules seen. listed.before_item rules seen (view_item item.now)) (item_weight (view_item item.now))) }
{
    match item {
        Item::Field { value, .. } => plan(
            tasks,
            &[Task::Check(CheckTask::Before, Check::Unchecked, value)],
        ),
        Item::Keyed { key, value } => keyed(tasks, item, key, value),
        Item::Plain(value) => plan(
            tasks,
            &[Task::Check(CheckTask::Before, Check::Unchecked, value)],
        ),
    }
}

fn each_item<'t>(tasks: &mut Vec<Task<'t>>, items: &'t [Item]) -> Result<(), AllocError>
    ensures { OnOk result (Puts tasks.old.items tasks.new.items (λ rules seen. listed.each_item (listed.before_item rules seen) (view_items items.now)) (items_weight (view_items items.now))) }
{
    for one in items {
        item(tasks, one)?;
    }
    Ok(())
}

/// The contexts of a table constructor.
pub(crate) fn table<'t>(tasks: &mut Vec<Task<'t>>, items: &'t [Item]) -> Result<(), AllocError>
    ensures { OnOk result ((id : ℕ) → Puts tasks.old.items tasks.new.items (λ rules seen. listed.with_ev_kind rules seen id (plain.TableExpr (view_items items.now))) (kind_weight (plain.TableExpr (view_items items.now)))) }
{
    plan(
        tasks,
        &[
            Task::Answer(AnswerStep::Spread),
            Task::Behind(BehindStep::Restore),
        ],
    )?;
    each_item(tasks, items)?;
    plan(tasks, &[Task::Behind(BehindStep::Begin)])
}

/// The reports of an item.
fn item_found<'t>(tasks: &mut Vec<Task<'t>>, item: &'t Item) -> Result<(), AllocError>
    ensures { OnOk result (Puts tasks.old.items tasks.new.items (λ rules seen. found_item rules seen (view_item item.now)) (item_weight (view_item item.now))) }
{
    match item {
        Item::Field { value, .. } => plan(
            tasks,
            &[Task::Check(CheckTask::Found, Check::Unchecked, value)],
        ),
        Item::Keyed { key, value } => plan(
            tasks,
            &[
                Task::Check(CheckTask::Found, Check::Unchecked, value),
                Task::Check(CheckTask::Found, Check::Unchecked, key),
            ],
        ),
        Item::Plain(value) => plan(
            tasks,
            &[Task::Check(CheckTask::Found, Check::Unchecked, value)],
        ),
    }
}

/// The reports of the parts of a table constructor.
pub(crate) fn table_found<'t>(
    tasks: &mut Vec<Task<'t>>,
    items: &'t [Item],
) -> Result<(), AllocError>
    ensures { OnOk result ((how : PlainCheck) (id : ℕ) (span : Span) → Puts tasks.old.items tasks.new.items (λ rules seen. found_parts_as rules seen how (plain.the_expr id span (plain.TableExpr (view_items items.now))))
        (kind_weight (plain.TableExpr (view_items items.now)))) }
{
    for one in items {
        item_found(tasks, one)?;
    }
    Ok(())
}
