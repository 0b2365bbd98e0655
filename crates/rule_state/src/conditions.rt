//! What is known of the locals where a condition decided, in loops and in bodies.
ghost use Rattle.std.specs.Prelude.{◌≡◌, map, All, OnOk};
ghost use Rattle.luau_scope.specs.Laws.{AscendFrom};
ghost use Rattle.luau_tree.specs.View.{view_expr};
ghost use Rattle.local_types.specs.Entries.{type_of};
ghost use Rattle.local_types.specs.Locals.{numbers, said_meant, refs_said};
ghost use Rattle.module_reading.specs.Names.{Reads};
ghost use Rattle.report_rules.specs.Rules.{Rules};
ghost use Rattle.report_rules.specs.TypeMap.{refine as refine_map, body_map, forget as forget_locals};
ghost use Rattle.rule_state.specs.Conditions.{headed, refined_by_said};
ghost use Rattle.rule_work.specs.Moves.{mapped};
ghost use Rattle.rule_state.specs.Sound.{Stands};
ghost use Rattle.rule_state.specs.Work.{work_of};

use crate::guarding::guard_in;
use crate::state::RuleState;
use local_types::{Change, Point};
use luau_scope::Scoped;
use luau_tree::{Expr, LocalId};
use std::alloc::AllocError;
use type_arena::TypeRef;

impl<'a> RuleState<'a> {
    /// What is known where a condition came out true, or false.
    pub fn refine(&mut self, scoped: &Scoped, cond: &Expr, truth: bool) -> Result<(), AllocError>
        requires { AscendFrom 0 (map (λ u. u.0.0) scoped.now.uses) }
        ensures { OnOk result ((rules : Rules) → Reads scoped.now.uses scoped.now.locals rules → work_of self.new ≡ mapped (refine_map rules (view_expr cond.now) truth) (work_of self.old)) }
    {
        let guard = guard_in(self.alloc, &mut self.types, scoped, cond)?;
        if truth {
            self.refine_by(guard.when_true.as_slice())
        } else {
            self.refine_by(guard.when_false.as_slice())
        }
    }

    /// What is known at each turn of a loop: nothing of the locals that it assigns or declares.
    pub fn head(&mut self, touched: &[LocalId], stirs: bool) -> Result<(), AllocError>
        ensures { OnOk result (work_of self.new ≡ mapped (headed (numbers touched.now) stirs) (work_of self.old)) }
    {
        self.after(stirs)?;
        self.forget(touched)
    }

    /// What is known where the body of a function starts: nothing of its parameters.
    pub fn enter(&mut self, params: &[LocalId]) -> Result<(), AllocError>
        ensures { OnOk result (work_of self.new ≡ mapped (body_map (numbers params.now)) (work_of self.old)) }
    {
        self.after(true)?;
        self.forget(params)
    }

    /// What is known where nothing is known of some locals.
    pub fn forget(&mut self, locals: &[LocalId]) -> Result<(), AllocError>
        ensures { OnOk result (work_of self.new ≡ mapped (forget_locals (numbers locals.now)) (work_of self.old)) }
    {
        let map = self.types.forgotten(self.alloc, self.point.map, locals)?;
        self.point = Point {
            map,
            dead: self.point.dead,
        };
        Ok(())
    }

    // What is known where something is said of some locals.
    fn refine_by(&mut self, said: &[(LocalId, TypeRef)]) -> Result<(), AllocError>
        requires { All (Stands self.old.types self.old.outside.items) (refs_said said.now) }
        ensures { OnOk result (work_of self.new ≡ mapped (refined_by_said (said_meant (type_of self.old.types) said.now)) (work_of self.old)) }
    {
        let refined = self.types.refined(self.alloc, self.point.map, said)?;
        self.point = Point {
            map: refined.map,
            dead: self.point.dead | refined.empty,
        };
        Ok(())
    }
}
