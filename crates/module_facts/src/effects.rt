//! Which expressions have effects, and which expand.
ghost use Rattle.std.specs.Prelude.{◌≡◌, ◌||◌};
ghost use Rattle.luau_tree.specs.View.{view_choice, view_choices, view_expr, view_exprs, view_item, view_items, view_maybe_expr};
ghost use Rattle.report_rules.specs.Effects as syntax;
ghost use Rattle.module_facts.specs.Facts.{IsInOrder, rules_of_facts};

use crate::facts::Facts;
use luau_tree::{Choice, Expr, ExprKind, Item};

/// Whether an expression expands where it stands last in a list.
#[tactic(auto, unfolding(luau_tree::specs::View::view_expr))]
pub fn expands(e: &Expr) -> bool
    ensures { result ≡ syntax.expands (view_expr e.now) }
{
    match &e.kind {
        ExprKind::Call { .. } | ExprKind::Method { .. } | ExprKind::Vararg => true,
        _ => false,
    }
}

/// Whether the last of a list expands.
pub fn last_expands(es: &[Expr]) -> bool
    ensures { result ≡ syntax.last_expands (view_exprs es.now) }
{
    match es.last() {
        Some(e) => expands(e),
        None => false,
    }
}

#[tactic(auto, unfolding(luau_tree::specs::View::view_expr, luau_tree::specs::View::view_item))]
impl<'w> Facts<'w> {
    /// Whether a call that isn't quiet stands in an expression, outside function literals.
    #[cycle(effects)]
    pub fn effects(&self, e: &Expr) -> bool
        requires { IsInOrder self.now.scoped.now }
        ensures { result ≡ syntax.effects (rules_of_facts self.now) (view_expr e.now) }
    {
        match &e.kind {
            ExprKind::Index { base, .. } => self.effects(base.get()),
            ExprKind::At { base, key } => self.effects(base.get()) || self.effects(key.get()),
            ExprKind::Call { callee, args } => {
                !self.is_quiet_call(callee.get())
                    || (self.effects(callee.get()) || self.any_effects(args.as_slice()))
            }
            ExprKind::Method { .. } => true,
            ExprKind::Paren(inner) => self.effects(inner.get()),
            ExprKind::Unary { e: inner, .. } => self.effects(inner.get()),
            ExprKind::Binary { left, right, .. } => {
                self.effects(left.get()) || self.effects(right.get())
            }
            ExprKind::IfElse { arms, last } => {
                self.choices_have_effects(arms.as_slice()) || self.effects(last.get())
            }
            ExprKind::Table(items) => self.items_have_effects(items.as_slice()),
            ExprKind::Interp { parts, .. } => self.any_effects(parts.as_slice()),
            ExprKind::Assert { e: inner, .. } => self.effects(inner.get()),
            _ => false,
        }
    }

    /// Whether some expression of a list has effects.
    #[cycle(effects)]
    pub fn any_effects(&self, es: &[Expr]) -> bool
        requires { IsInOrder self.now.scoped.now }
        ensures { result ≡ syntax.any_effects (rules_of_facts self.now) (view_exprs es.now) }
    {
        for e in es {
            if self.effects(e) {
                return true;
            }
        }
        false
    }

    /// Whether a condition or a value of an if-expression has effects, but for the last.
    #[cycle(effects)]
    pub fn choices_have_effects(&self, arms: &[Choice]) -> bool
        requires { IsInOrder self.now.scoped.now }
        ensures { result ≡ syntax.effects_of_choices (rules_of_facts self.now) (view_choices arms.now) }
    {
        for arm in arms {
            if self.choice_has_effects(arm) {
                return true;
            }
        }
        false
    }

    /// Whether a condition, or the value behind it, has effects.
    #[cycle(effects)]
    #[tactic(auto, unfolding(luau_tree::specs::View::view_choice, luau_tree::specs::View::view_expr))]
    fn choice_has_effects(&self, arm: &Choice) -> bool
        requires { IsInOrder self.now.scoped.now }
        ensures { result ≡ (syntax.effects (rules_of_facts self.now) (view_choice arm.now).0 || syntax.effects (rules_of_facts self.now) (view_choice arm.now).1) }
    {
        self.effects(&arm.cond) || self.effects(&arm.value)
    }

    /// Whether an item of a table constructor has effects.
    #[cycle(effects)]
    pub fn items_have_effects(&self, items: &[Item]) -> bool
        requires { IsInOrder self.now.scoped.now }
        ensures { result ≡ syntax.effects_of_items (rules_of_facts self.now) (view_items items.now) }
    {
        for item in items {
            if self.item_has_effects(item) {
                return true;
            }
        }
        false
    }

    /// Whether an item has effects.
    #[cycle(effects)]
    pub fn item_has_effects(&self, item: &Item) -> bool
        requires { IsInOrder self.now.scoped.now }
        ensures { result ≡ syntax.effects_of_item (rules_of_facts self.now) (view_item item.now) }
    {
        match item {
            Item::Field { value, .. } => self.effects(value),
            Item::Keyed { key, value } => self.effects(key) || self.effects(value),
            Item::Plain(value) => self.effects(value),
        }
    }

    /// Whether an expression that may be missing has effects.
    pub fn maybe_effects(&self, e: &Option<Expr>) -> bool
        requires { IsInOrder self.now.scoped.now }
        ensures { result ≡ syntax.effects_of_maybe (rules_of_facts self.now) (view_maybe_expr e.now) }
    {
        match e {
            None => false,
            Some(e) => self.effects(e),
        }
    }
}
