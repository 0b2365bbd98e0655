//! Names as types have them.
ghost use Rattle.std.specs.Prelude.{◌≡◌, ◌++◌, [], IfOk, OnOk};
ghost use Rattle.std.specs.Option.{option_copied};
ghost use Rattle.luau_tree.specs.View.{view_item, view_items};
ghost use Rattle.infer_plan.specs.Steps.{item_names, name_before};
ghost use Rattle.type_infer.specs.ItemNames.{item_name};

use infer_plan::name_of_key;
use luau_tree::{Bytes, Item};
use std::alloc::{AllocError, Global};
use type_arena::Label;

/// A name, as types have it.
pub(crate) fn label_of(alloc: Global, name: &Bytes) -> Result<Label, AllocError>
    ensures { IfOk result (λ label. label ≡ name.now) }
{
    let bytes = Vec::from_slice(alloc, name.as_slice())?;
    Ok(Label::of(bytes))
}

/// The name of an item of a table constructor.
fn name_of_item(item: &Item) -> Option<&Bytes>
    ensures { option_copied result ≡ item_name (view_item item.now) }
{
    match item {
        Item::Field { name, .. } => Some(name),
        Item::Keyed { key, .. } => name_of_key(key),
        Item::Plain(_) => None,
    }
}

/// Adds a name, if there is one.
fn add(alloc: Global, name: Option<&Bytes>, to: &mut Vec<Label>) -> Result<(), AllocError>
    ensures { OnOk result (to.new.items ≡ to.old.items ++ name_before (option_copied name.entry) []) }
{
    if let Some(name) = name {
        to.push(label_of(alloc, name)?)?;
    }
    Ok(())
}

/// The names of the items that have one.
pub(crate) fn labels_of(alloc: Global, items: &[Item]) -> Result<Vec<Label>, AllocError>
    ensures { IfOk result (λ labels. labels.items ≡ item_names (view_items items.now)) }
{
    let mut labels = Vec::new(alloc);
    for item in items {
        add(alloc, name_of_item(item), &mut labels)?;
    }
    Ok(labels)
}
