//! Which statements may change a table that was there.
ghost use Rattle.std.specs.Prelude.{◌≡◌, ◌||◌};
ghost use Rattle.luau_tree.specs.View.{view_arm, view_arms, view_block, view_expr, view_exprs, view_maybe_block, view_maybe_expr, view_stat};
ghost use Rattle.report_rules.specs.Effects as syntax;
ghost use Rattle.module_facts.specs.Facts.{IsInOrder, rules_of_facts};

use crate::facts::Facts;
use crate::targets::is_in_table;
use luau_tree::{Arm, Block, Expr, Stat, StatKind};

#[tactic(auto, unfolding(luau_tree::specs::View::view_stat, luau_tree::specs::View::view_block, luau_tree::specs::View::view_expr))]
impl<'w> Facts<'w> {
    /// Whether a target of an assignment is a field or an element.
    fn any_in_table(&self, targets: &[Expr]) -> bool
        requires { IsInOrder self.now.scoped.now }
        ensures { result ≡ syntax.any_in_table (syntax.targets_of (rules_of_facts self.now) (view_exprs targets.now)) }
    {
        for target in targets {
            if is_in_table(&self.target_of(target)) {
                return true;
            }
        }
        false
    }

    /// Whether an assignment stirs.
    fn assignment_stirs(&self, targets: &[Expr], values: &[Expr]) -> bool
        requires { IsInOrder self.now.scoped.now }
        ensures { result ≡ (syntax.any_in_table (syntax.targets_of (rules_of_facts self.now) (view_exprs targets.now))
            || (syntax.any_effects (rules_of_facts self.now) (view_exprs targets.now) || syntax.any_effects (rules_of_facts self.now) (view_exprs values.now))) }
    {
        self.any_in_table(targets) || (self.any_effects(targets) || self.any_effects(values))
    }

    /// Whether a statement may change a table that was there: by a call that isn't quiet, by a write to a field or by a key,
    /// or by a generic `for`. Function literals in it aren't looked into.
    #[cycle(stirs)]
    pub fn stirs(&self, s: &Stat) -> bool
        requires { IsInOrder self.now.scoped.now }
        ensures { result ≡ syntax.stirs (rules_of_facts self.now) (view_stat s.now) }
    {
        match &s.kind {
            StatKind::Assign { targets, values } => {
                self.assignment_stirs(targets.as_slice(), values.as_slice())
            }
            StatKind::Compound { target, value, .. } => {
                is_in_table(&self.target_of(target))
                    || (self.effects(target) || self.effects(value))
            }
            StatKind::CallStat(call) => self.effects(call),
            StatKind::Do(body) => self.block_stirs(body),
            StatKind::While { cond, body } => self.effects(cond) || self.block_stirs(body),
            StatKind::Repeat { body, cond } => self.block_stirs(body) || self.effects(cond),
            StatKind::If { arms, last } => {
                self.arms_stir(arms.as_slice()) || self.last_stirs(last)
            }
            StatKind::NumFor {
                from,
                to,
                step,
                body,
                ..
            } => self.num_for_stirs(body, from, to, step),
            StatKind::GenFor { .. } => true,
            StatKind::Function { path, method, .. } => {
                is_in_table(&self.function_target(path, method)) || self.effects(path)
            }
            StatKind::Local { values, .. } => self.any_effects(values.as_slice()),
            StatKind::Return(values) => self.any_effects(values.as_slice()),
            _ => false,
        }
    }

    /// Whether a numeric `for` stirs.
    #[cycle(stirs)]
    fn num_for_stirs(&self, body: &Block, from: &Expr, to: &Expr, step: &Option<Expr>) -> bool
        requires { IsInOrder self.now.scoped.now }
        ensures { result ≡ (syntax.effects (rules_of_facts self.now) (view_expr from.now) || (syntax.effects (rules_of_facts self.now) (view_expr to.now)
            || (syntax.effects_of_maybe (rules_of_facts self.now) (view_maybe_expr step.now) || syntax.stirs_block (rules_of_facts self.now) (view_block body.now)))) }
    {
        self.effects(from)
            || (self.effects(to) || (self.maybe_effects(step) || self.block_stirs(body)))
    }

    /// Whether some statement of a block stirs.
    #[cycle(stirs)]
    pub fn block_stirs(&self, block: &Block) -> bool
        requires { IsInOrder self.now.scoped.now }
        ensures { result ≡ syntax.stirs_block (rules_of_facts self.now) (view_block block.now) }
    {
        for s in block.stats.as_slice() {
            if self.stirs(s) {
                return true;
            }
        }
        false
    }

    /// Whether some condition of an `if` has effects, or some block behind one stirs.
    #[cycle(stirs)]
    fn arms_stir(&self, arms: &[Arm]) -> bool
        requires { IsInOrder self.now.scoped.now }
        ensures { result ≡ syntax.stirs_arms (rules_of_facts self.now) (view_arms arms.now) }
    {
        for arm in arms {
            if self.arm_stirs(arm) {
                return true;
            }
        }
        false
    }

    /// Whether a condition has effects, or the block behind it stirs.
    #[cycle(stirs)]
    fn arm_stirs(&self, arm: &Arm) -> bool
        requires { IsInOrder self.now.scoped.now }
        ensures { result ≡ (syntax.effects (rules_of_facts self.now) (view_arm arm.now).0 || syntax.stirs_block (rules_of_facts self.now) (view_arm arm.now).1) }
    {
        self.effects(&arm.cond) || self.block_stirs(&arm.block)
    }

    /// Whether the block behind `else` stirs.
    #[cycle(stirs)]
    fn last_stirs(&self, last: &Option<Block>) -> bool
        requires { IsInOrder self.now.scoped.now }
        ensures { result ≡ syntax.stirs_maybe (rules_of_facts self.now) (view_maybe_block last.now) }
    {
        match last {
            None => false,
            Some(body) => self.block_stirs(body),
        }
    }
}
