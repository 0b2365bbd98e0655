//! What is written.
ghost use Rattle.std.specs.Prelude.{◌≡◌, ℕ};
ghost use Rattle.luau_tree.specs.declared.position.Span.{Span};
ghost use Rattle.luau_tree.specs.Tree.{At, the_expr};
ghost use Rattle.luau_tree.specs.View.{view_expr};
ghost use Rattle.report_rules.specs.Effects as syntax;
ghost use Rattle.report_rules.specs.Rules as rules;
ghost use Rattle.module_facts.specs.Facts.{IsInOrder, rules_of_facts};
ghost use Rattle.module_facts.specs.Targets.{target_meant};

use crate::facts::Facts;
use luau_tree::{Bytes, Expr, ExprKind, LocalId};

/// What is written.
#[derive(Clone, Copy)]
pub enum Target<'t> {
    Local(LocalId),
    Global,
    /// A field, with the local that is its base.
    Field(Option<LocalId>, &'t Bytes),
    /// An element by a key that isn't a name.
    Element,
}

/// Whether a write goes to a field or by a key.
pub fn is_in_table(target: &Target<'_>) -> bool
    ensures { result ≡ syntax.is_in_table (target_meant target.now) }
{
    match target {
        Target::Field(_, _) | Target::Element => true,
        _ => false,
    }
}

#[tactic(auto, unfolding(luau_tree::specs::View::view_expr))]
impl<'w> Facts<'w> {
    /// What an expression is, as the target of a write.
    pub fn target_of<'t>(&self, e: &'t Expr) -> Target<'t>
        requires { IsInOrder self.now.scoped.now }
        ensures { target_meant result ≡ syntax.target_of (rules_of_facts self.now) (view_expr e.now) }
    {
        match &e.kind {
            ExprKind::Index { base, name } => Target::Field(self.local_named(base.get()), name),
            ExprKind::At { base, key } => self.element(base.get(), key.get()),
            _ => self.name_target(e),
        }
    }

    fn element<'t>(&self, base: &'t Expr, key: &'t Expr) -> Target<'t>
        requires { IsInOrder self.now.scoped.now }
        ensures { (id : ℕ) (span : Span) → target_meant result ≡ syntax.target_of (rules_of_facts self.now) (the_expr id span (At (view_expr base.now) (view_expr key.now))) }
    {
        match &key.kind {
            ExprKind::Str(name) => Target::Field(self.local_named(base), name),
            _ => Target::Element,
        }
    }

    fn name_target<'t>(&self, e: &'t Expr) -> Target<'t>
        requires { IsInOrder self.now.scoped.now }
        ensures { target_meant result ≡ syntax.of_name (rules.local_named (rules_of_facts self.now) (view_expr e.now)) }
    {
        match self.local_named(e) {
            Some(local) => Target::Local(local),
            None => Target::Global,
        }
    }

    /// What a function statement writes: its path, or the method that it names there.
    pub fn function_target<'t>(&self, path: &'t Expr, method: &'t Option<Bytes>) -> Target<'t>
        requires { IsInOrder self.now.scoped.now }
        ensures { target_meant result ≡ syntax.function_target (rules_of_facts self.now) (view_expr path.now) method.now }
    {
        match method {
            None => self.target_of(path),
            Some(name) => Target::Field(self.local_named(path), name),
        }
    }
}
