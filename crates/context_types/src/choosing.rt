//! The sides of `and` and `or`, and the choices of if-expressions.
ghost use Rattle.std.specs.Prelude.{◌≡◌, IfOk, All, map};
ghost use Rattle.luau_scope.specs.Laws.{AscendFrom};
ghost use Rattle.luau_tree.specs.View.{view_expr};
ghost use Rattle.module_reading.specs.Names.{Reads};
ghost use Rattle.report_rules.specs.Context.{branch as branched};
ghost use Rattle.report_rules.specs.Rules.{Rules};
ghost use Rattle.report_work.specs.Moves.{first_of, rest_of as rest_of_list, parts_among as parts_among_contexts, zipped};
ghost use Rattle.context_types.specs.Types.{set_in, context_in};
ghost use Rattle.context_types.specs.Lists.{way_context};
ghost use Rattle.context_types.specs.Standing.{Grows, Stands, StandsContext};

use crate::deciding::Way;
use crate::lists::first_copied;
use crate::types::ContextTypes;
use error_context::Context;
use luau_scope::Scoped;
use luau_tree::Expr;
use std::alloc::{AllocError, Global};
use type_arena::TypeRef;

impl<'a> ContextTypes<'a> {
    /// What a condition chooses for each of some sets, by the contexts of its left side and of its right side.
    pub fn sides(
        &mut self,
        alloc: Global,
        way: Way,
        scoped: &Scoped,
        cond: &Expr,
        has_effects: bool,
        sets: &[TypeRef],
        lefts: &[Context],
        rights: &[Context],
    ) -> Result<Vec<Context>, AllocError>
        requires ordered { AscendFrom 0 (map (λ u. u.0.0) scoped.now.uses) }
        requires sets { All (Stands self.old) sets.now }
        requires left { All (StandsContext self.old) lefts.now }
        requires right { All (StandsContext self.old) rights.now }
        ensures contexts { IfOk result (λ made. (rules : Rules) → Reads scoped.now.uses scoped.now.locals rules → map (context_in self.new) made.items
            ≡ zipped (way_context way rules (view_expr cond.now) has_effects (first_of (map (context_in self.old) lefts.now))) (map (context_in self.old) rights.now)
            (parts_among_contexts (map (set_in self.old) sets.now) (map (context_in self.old) lefts.now))) }
        ensures stand { IfOk result (λ made. All (StandsContext self.new) made.items) }
        ensures grows { Grows self.old self.new }
    {
        let parts = self.parts_among(sets, lefts);
        self.choose(alloc, way, scoped, cond, has_effects, lefts, rights, parts)
    }

    /// A condition decides between two contexts.
    pub fn decided(
        &mut self,
        alloc: Global,
        scoped: &Scoped,
        cond: &Expr,
        when_true: Context,
        when_false: Context,
    ) -> Result<Context, AllocError>
        requires ordered { AscendFrom 0 (map (λ u. u.0.0) scoped.now.uses) }
        requires left { StandsContext self.old when_true }
        requires right { StandsContext self.old when_false }
        ensures context { IfOk result (λ made. (rules : Rules) → Reads scoped.now.uses scoped.now.locals rules → context_in self.new made ≡ branched rules (view_expr cond.now) (context_in self.old when_true) (context_in self.old when_false)) }
        ensures stands { IfOk result (StandsContext self.new) }
        ensures grows { Grows self.old self.new }
    {
        let guard = self.guard(alloc, scoped, cond)?;
        let made = self.branch(alloc, &guard, when_true, when_false)?;
        Ok(made)
    }

    /// What a condition chooses of two lists of contexts, one by one, with the first of its own contexts before each.
    pub fn choose(
        &mut self,
        alloc: Global,
        way: Way,
        scoped: &Scoped,
        cond: &Expr,
        has_effects: bool,
        firsts: &[Context],
        a: &[Context],
        b: &[Context],
    ) -> Result<Vec<Context>, AllocError>
        requires ordered { AscendFrom 0 (map (λ u. u.0.0) scoped.now.uses) }
        requires firsts { All (StandsContext self.old) firsts.now }
        requires left { All (StandsContext self.old) a.now }
        requires right { All (StandsContext self.old) b.now }
        ensures contexts { IfOk result (λ made. (rules : Rules) → Reads scoped.now.uses scoped.now.locals rules → map (context_in self.new) made.items
            ≡ zipped (way_context way rules (view_expr cond.now) has_effects (first_of (map (context_in self.old) firsts.now))) (map (context_in self.old) a.now)
            (map (context_in self.old) b.now)) }
        ensures stand { IfOk result (λ made. All (StandsContext self.new) made.items) }
        ensures grows { Grows self.old self.new }
    {
        let first = first_copied(alloc, firsts)?;
        let guard = self.guard(alloc, scoped, cond)?;
        let made = self.decide_each(alloc, way, &guard, has_effects, &first, a, b)?;
        Ok(made)
    }

    // Of the contexts of a left side those for the part of each set.
    fn parts_among<'s>(&self, sets: &[TypeRef], lefts: &'s [Context]) -> &'s [Context]
        requires sets { All (Stands self.now) sets.now }
        requires lefts { All (StandsContext self.now) lefts.now }
        ensures contexts { map (context_in self.now) result.now ≡ parts_among_contexts (map (set_in self.now) sets.now) (map (context_in self.now) lefts.now) }
        ensures stand { All (StandsContext self.now) result.now }
    {
        match sets {
            [] => &[],
            [first, ..] => {
                if self.is_empty(*first) {
                    lefts
                } else {
                    rest_of(lefts)
                }
            }
        }
    }
}

// All but the first of some contexts.
fn rest_of(contexts: &[Context]) -> &[Context]
    ensures { result.now ≡ rest_of_list contexts.now }
{
    match contexts {
        [] => contexts,
        [_, rest @ ..] => rest,
    }
}
