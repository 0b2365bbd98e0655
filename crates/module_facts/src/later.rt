//! What stands behind each item of a list.
ghost use Rattle.std.specs.Prelude.{◌≡◌, ◌+◌, ◌≤◌, IfOk, if◌then◌else◌, count_by};
ghost use Rattle.luau_tree.specs.View.{view_expr, view_exprs, view_item, view_items};
ghost use Rattle.report_rules.specs.Effects as syntax;
ghost use Rattle.module_facts.specs.Facts.{IsInOrder, rules_of_facts};
ghost use Rattle.module_facts.specs.Later.{later_effects, later_items};

use crate::facts::Facts;
use luau_tree::{Expr, Item};
use std::alloc::{AllocError, Global};

impl<'w> Facts<'w> {
    /// How many expressions of a list have effects.
    fn count_effects(&self, es: &[Expr]) -> usize
        requires { IsInOrder self.now.scoped.now }
        ensures { result ≡ count_by (λ e. syntax.effects (rules_of_facts self.now) (view_expr e)) es.now }
    {
        es.iter().filter(|e| self.effects(e)).count()
    }

    /// How many are left behind an expression, where so many have effects from it on.
    fn left_behind(&self, e: &Expr, left: usize) -> usize
        requires { IsInOrder self.now.scoped.now }
        ensures { (if syntax.effects (rules_of_facts self.now) (view_expr e.now) then 1 else 0) ≤ left → left ≡ (if syntax.effects (rules_of_facts self.now) (view_expr e.now) then 1 else 0) + result }
    {
        if left > 0 && self.effects(e) {
            left - 1
        } else {
            left
        }
    }

    /// For each expression of a list, whether one behind it has effects. Goes over the list twice.
    pub fn later_effects(&self, alloc: Global, es: &[Expr]) -> Result<Vec<bool>, AllocError>
        requires { IsInOrder self.now.scoped.now }
        ensures { IfOk result (λ later. later.items ≡ later_effects (rules_of_facts self.now) (view_exprs es.now)) }
    {
        let mut left = self.count_effects(es);
        let mut later = Vec::new(alloc);
        for e in es {
            let behind = self.left_behind(e, left);
            later.push(behind > 0)?;
            left = behind;
        }
        Ok(later)
    }

    /// How many items of a table constructor have effects.
    fn count_item_effects(&self, items: &[Item]) -> usize
        requires { IsInOrder self.now.scoped.now }
        ensures { result ≡ count_by (λ item. syntax.effects_of_item (rules_of_facts self.now) (view_item item)) items.now }
    {
        items
            .iter()
            .filter(|item| self.item_has_effects(item))
            .count()
    }

    /// How many are left behind an item, where so many have effects from it on.
    fn left_behind_item(&self, item: &Item, left: usize) -> usize
        requires { IsInOrder self.now.scoped.now }
        ensures { (if syntax.effects_of_item (rules_of_facts self.now) (view_item item.now) then 1 else 0) ≤ left → left ≡ (if syntax.effects_of_item (rules_of_facts self.now) (view_item item.now) then 1 else 0) + result }
    {
        if left > 0 && self.item_has_effects(item) {
            left - 1
        } else {
            left
        }
    }

    /// For each item of a table constructor, whether one behind it has effects. Goes over the list twice.
    pub fn later_items(&self, alloc: Global, items: &[Item]) -> Result<Vec<bool>, AllocError>
        requires { IsInOrder self.now.scoped.now }
        ensures { IfOk result (λ later. later.items ≡ later_items (rules_of_facts self.now) (view_items items.now)) }
    {
        let mut left = self.count_item_effects(items);
        let mut later = Vec::new(alloc);
        for item in items {
            let behind = self.left_behind_item(item, left);
            later.push(behind > 0)?;
            left = behind;
        }
        Ok(later)
    }
}
