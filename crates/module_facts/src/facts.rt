//! What the names of a module stand for.
ghost use Rattle.std.specs.Prelude.{◌≡◌, false, option_map};
ghost use Rattle.std.specs.Option.{option_copied, option_map_or};
ghost use Rattle.luau_tree.specs.View.{view_expr};
ghost use Rattle.luau_run.specs.ReadFolder.{local_of};
ghost use Rattle.module_reading.specs.Names.{meaning_of};
ghost use Rattle.report_rules.specs.Rules as rules;
ghost use Rattle.module_facts.specs.Facts.{IsInOrder, builtin_of, declaration_of, rules_of_facts};

use luau_scope::{Scoped, Use};
use luau_tree::{Bytes, Expr, ExprKind, LocalId};
use type_decl::{Sig, SigTable};

/// A module with the declared builtins, as the rules read it.
#[derive(Clone, Copy)]
pub struct Facts<'w> {
    pub scoped: &'w Scoped,
    pub table: &'w SigTable,
    /// The home of the module's functions.
    pub home: u32,
}

impl<'w> Facts<'w> {
    /// What an expression stands for; None where it is no name and no builtin's path.
    #[tactic(auto, unfolding(luau_tree::specs::View::view_expr, crate::specs::Facts::rules_of_facts))]
    pub fn use_of(&self, e: &Expr) -> Option<&'w Use>
        requires { IsInOrder self.now.scoped.now }
        ensures { option_map (λ u. meaning_of u.now) result ≡ rules.use_of (rules_of_facts self.now) (view_expr e.now) }
    {
        self.scoped.use_of(e.id)
    }

    /// The local that an expression stands for.
    pub fn local_meant(&self, e: &Expr) -> Option<LocalId>
        requires { IsInOrder self.now.scoped.now }
        ensures { option_map (λ local. local.0) result ≡ local_of (rules.use_of (rules_of_facts self.now) (view_expr e.now)) }
    {
        match self.use_of(e) {
            Some(Use::Local(local)) => Some(*local),
            _ => None,
        }
    }

    /// The builtin that an expression stands for by its path.
    pub fn builtin_meant(&self, e: &Expr) -> Option<&'w Bytes>
        requires { IsInOrder self.now.scoped.now }
        ensures { option_copied result ≡ builtin_of (rules.use_of (rules_of_facts self.now) (view_expr e.now)) }
    {
        match self.use_of(e) {
            Some(Use::Builtin(path)) => Some(path),
            _ => None,
        }
    }

    /// The local that an expression is the bare name of.
    #[tactic(auto, unfolding(luau_tree::specs::View::view_expr, crate::specs::Facts::rules_of_facts))]
    pub fn local_named(&self, e: &Expr) -> Option<LocalId>
        requires { IsInOrder self.now.scoped.now }
        ensures { option_map (λ local. local.0) result ≡ rules.local_named (rules_of_facts self.now) (view_expr e.now) }
    {
        match &e.kind {
            ExprKind::Name(_) => self.local_meant(e),
            _ => None,
        }
    }

    /// The builtin that an expression always is: by its path, or as a local that always holds it.
    #[tactic(auto, unfolding(luau_tree::specs::View::view_expr, crate::specs::Facts::rules_of_facts))]
    pub fn fixed_builtin(&self, e: &Expr) -> Option<&'w Bytes>
        requires { IsInOrder self.now.scoped.now }
        ensures { option_copied result ≡ rules.fixed_builtin (rules_of_facts self.now) (view_expr e.now) }
    {
        self.scoped.fixed_builtin(e.id)
    }

    /// The declaration of a builtin; None for a path that isn't declared.
    pub fn signature(&self, path: &[u8]) -> Option<&'w Sig>
        ensures { option_map (λ sig. declaration_of self.now path.now sig.now) result ≡ rules.declared (rules_of_facts self.now) path.now }
    {
        self.table.get(path)
    }

    /// Whether a path is declared quiet.
    fn is_quiet(&self, path: &Bytes) -> bool
        ensures { result ≡ option_map_or (λ b. b.quiet) (rules.declared (rules_of_facts self.now) path.now) false }
    {
        match self.signature(path.as_slice()) {
            None => false,
            Some(sig) => sig.quiet,
        }
    }

    /// Whether a local may change at any time: it is captured and assigned.
    #[tactic(auto, unfolding(crate::specs::Facts::rules_of_facts))]
    pub fn loose(&self, local: LocalId) -> bool
        ensures { result ≡ rules.loose (rules_of_facts self.now) local.0 }
    {
        match self.scoped.locals.as_slice().get(local.0 as usize) {
            None => false,
            Some(found) => found.assigned && found.captured,
        }
    }

    /// Whether a callee is always one builtin, and that is declared quiet.
    pub fn is_quiet_call(&self, callee: &Expr) -> bool
        requires { IsInOrder self.now.scoped.now }
        ensures { result ≡ rules.is_quiet_call (rules_of_facts self.now) (view_expr callee.now) }
    {
        match self.fixed_builtin(callee) {
            None => false,
            Some(path) => self.is_quiet(path),
        }
    }
}
