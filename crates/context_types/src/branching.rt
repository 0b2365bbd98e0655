//! Conditions that decide.
ghost use Rattle.std.specs.Prelude.{◌≡◌, IfOk, map};
ghost use Rattle.luau_scope.specs.Laws.{AscendFrom};
ghost use Rattle.luau_tree.specs.Tree.{Expr as ExprTree};
ghost use Rattle.luau_tree.specs.View.{view_expr};
ghost use Rattle.module_reading.specs.Names.{Reads};
ghost use Rattle.report_rules.specs.Context.{branch as branched};
ghost use Rattle.report_rules.specs.Rules.{Rules};
ghost use Rattle.context_types.specs.Types.{context_in};
ghost use Rattle.context_types.specs.Standing.{Grows, Says, StandsContext, StandsGuard};

use crate::types::ContextTypes;
use error_context::Context;
use guards::Guard;
use luau_scope::Scoped;
use luau_tree::Expr;
use std::alloc::{AllocError, Global};

impl<'a> ContextTypes<'a> {
    /// What the truth and the falsity of a condition say of locals.
    pub fn guard(
        &mut self,
        alloc: Global,
        scoped: &Scoped,
        cond: &Expr,
    ) -> Result<Guard, AllocError>
        requires { AscendFrom 0 (map (λ u. u.0.0) scoped.now.uses) }
        ensures says { IfOk result (λ guard. (rules : Rules) → Reads scoped.now.uses scoped.now.locals rules → Says self.new rules (view_expr cond.now) guard) }
        ensures stands { IfOk result (StandsGuard self.new) }
        ensures grows { Grows self.old self.new }
    {
        let guard = guards::guard_of(alloc, &mut self.arena, scoped, cond)?;
        Ok(guard)
    }

    /// A condition decides between two contexts.
    pub fn branch(
        &mut self,
        alloc: Global,
        guard: &Guard,
        when_true: Context,
        when_false: Context,
    ) -> Result<Context, AllocError>
        requires guard { StandsGuard self.old guard.now }
        requires left { StandsContext self.old when_true }
        requires right { StandsContext self.old when_false }
        ensures context { IfOk result (λ made. (rules : Rules) (cond : ExprTree) → Says self.old rules cond guard.now → context_in self.new made ≡ branched rules cond (context_in self.old when_true) (context_in self.old when_false)) }
        ensures stands { IfOk result (StandsContext self.new) }
        ensures grows { Grows self.old self.new }
    {
        let truth = guard.when_true.as_slice();
        let falsity = guard.when_false.as_slice();
        let made = error_context::branch(
            alloc,
            &mut self.arena,
            truth,
            falsity,
            when_true,
            when_false,
        )?;
        Ok(made)
    }
}
