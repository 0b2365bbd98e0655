//! Which locals a statement assigns or declares.
ghost use Rattle.std.specs.Prelude.{◌≡◌, ◌==◌, ℕ, IfOk, OnOk, map};
ghost use Rattle.luau_tree.specs.View.{view_arms, view_bind, view_binds, view_block, view_exprs, view_maybe_block, view_stat};
ghost use Rattle.luau_run.specs.ReadFolder.{is_among};
ghost use Rattle.report_rules.specs.Effects as syntax;
ghost use Rattle.module_facts.specs.Facts.{IsInOrder, rules_of_facts};
ghost use Rattle.module_facts.specs.Targets.{target_meant};
ghost use Rattle.module_facts.specs.Touched.{Adds, touches_arms, touches_block, touches_maybe};

use crate::facts::Facts;
use crate::targets::Target;
use luau_tree::{Arm, Bind, Block, Expr, LocalId, Stat, StatKind};
use std::alloc::{AllocError, Global};

/// Adds the local that a write goes to.
fn add_target(target: &Target<'_>, to: &mut Vec<LocalId>) -> Result<(), AllocError>
    ensures { OnOk result (Adds (λ local. syntax.writes_local local (target_meant target.now)) to.old.items to.new.items) }
{
    match target {
        Target::Local(local) => {
            to.push(*local)?;
            Ok(())
        }
        _ => Ok(()),
    }
}

impl<'w> Facts<'w> {
    fn add_targets(&self, targets: &[Expr], to: &mut Vec<LocalId>) -> Result<(), AllocError>
        requires { IsInOrder self.now.scoped.now }
        ensures { OnOk result (Adds (λ local. syntax.any_writes_local local (syntax.targets_of (rules_of_facts self.now) (view_exprs targets.now))) to.old.items to.new.items) }
    {
        for target in targets {
            add_target(&self.target_of(target), to)?;
        }
        Ok(())
    }

    fn add_bind(&self, bind: &Bind, to: &mut Vec<LocalId>) -> Result<(), AllocError>
        requires { IsInOrder self.now.scoped.now }
        ensures { OnOk result (Adds (λ local. syntax.local_of_bind (rules_of_facts self.now) (view_bind bind.now) == local) to.old.items to.new.items) }
    {
        to.push(self.local_of_bind(bind))?;
        Ok(())
    }

    fn add_binds(&self, binds: &[Bind], to: &mut Vec<LocalId>) -> Result<(), AllocError>
        requires { IsInOrder self.now.scoped.now }
        ensures { OnOk result (Adds (λ local. is_among local (syntax.locals_of_binds (rules_of_facts self.now) (view_binds binds.now))) to.old.items to.new.items) }
    {
        for bind in binds {
            self.add_bind(bind, to)?;
        }
        Ok(())
    }

    #[cycle(touched)]
    #[tactic(auto, unfolding(luau_tree::specs::View::view_stat))]
    fn add_touched(&self, s: &Stat, to: &mut Vec<LocalId>) -> Result<(), AllocError>
        requires { IsInOrder self.now.scoped.now }
        ensures { OnOk result (Adds (λ local. syntax.touches (rules_of_facts self.now) local (view_stat s.now)) to.old.items to.new.items) }
    {
        match &s.kind {
            StatKind::Assign { targets, .. } => self.add_targets(targets.as_slice(), to),
            StatKind::Compound { target, .. } => add_target(&self.target_of(target), to),
            StatKind::Function { path, method, .. } => add_target(
                &self.function_target(path, method),
                to,
            ),
            StatKind::Do(body) => self.add_block(body, to),
            StatKind::While { body, .. } => self.add_block(body, to),
            StatKind::Repeat { body, .. } => self.add_block(body, to),
            StatKind::NumFor { bind, body, .. } => {
                self.add_bind(bind, to)?;
                self.add_block(body, to)
            }
            StatKind::GenFor { binds, body, .. } => {
                self.add_binds(binds.as_slice(), to)?;
                self.add_block(body, to)
            }
            StatKind::If { arms, last } => {
                self.add_arms(arms.as_slice(), to)?;
                self.add_last(last, to)
            }
            StatKind::LocalFunction { name, .. } => self.add_bind(name, to),
            StatKind::Local { binds, .. } => self.add_binds(binds.as_slice(), to),
            StatKind::CallStat(_) => Ok(()),
            StatKind::TypeAlias { .. } => Ok(()),
            StatKind::TypeFunction { .. } => Ok(()),
            StatKind::Return(_) => Ok(()),
            StatKind::Break => Ok(()),
            StatKind::Continue => Ok(()),
        }
    }

    #[cycle(touched)]
    fn add_block(&self, block: &Block, to: &mut Vec<LocalId>) -> Result<(), AllocError>
        requires { IsInOrder self.now.scoped.now }
        ensures { OnOk result (Adds (λ local. touches_block (rules_of_facts self.now) local (view_block block.now)) to.old.items to.new.items) }
    {
        for s in block.stats.as_slice() {
            self.add_touched(s, to)?;
        }
        Ok(())
    }

    #[cycle(touched)]
    fn add_arms(&self, arms: &[Arm], to: &mut Vec<LocalId>) -> Result<(), AllocError>
        requires { IsInOrder self.now.scoped.now }
        ensures { OnOk result (Adds (λ local. touches_arms (rules_of_facts self.now) local (view_arms arms.now)) to.old.items to.new.items) }
    {
        for arm in arms {
            self.add_block(&arm.block, to)?;
        }
        Ok(())
    }

    #[cycle(touched)]
    fn add_last(&self, last: &Option<Block>, to: &mut Vec<LocalId>) -> Result<(), AllocError>
        requires { IsInOrder self.now.scoped.now }
        ensures { OnOk result (Adds (λ local. touches_maybe (rules_of_facts self.now) local (view_maybe_block last.now)) to.old.items to.new.items) }
    {
        match last {
            None => Ok(()),
            Some(body) => self.add_block(body, to),
        }
    }

    /// The locals that a statement assigns or declares, outside function literals.
    pub fn touched(&self, alloc: Global, s: &Stat) -> Result<Vec<LocalId>, AllocError>
        requires { IsInOrder self.now.scoped.now }
        ensures { IfOk result (λ locals. (local : ℕ) → is_among local (map (λ l. l.0) locals.items) ≡ syntax.touches (rules_of_facts self.now) local (view_stat s.now)) }
    {
        let mut locals = Vec::new(alloc);
        self.add_touched(s, &mut locals)?;
        Ok(locals)
    }
}
