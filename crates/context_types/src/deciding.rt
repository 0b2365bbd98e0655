//! Parts of which a condition chooses.
ghost use Rattle.std.specs.Prelude.{◌≡◌, ◌≤◌, IfOk, All, map};
ghost use Rattle.luau_tree.specs.Tree.{Expr as ExprTree};
ghost use Rattle.report_rules.specs.Rules.{Rules};
ghost use Rattle.report_work.specs.Moves.{and_one as and_one_context, or_one as or_one_context, choice_one as choice_one_context, zipped};
ghost use Rattle.context_types.specs.Types.{context_in};
ghost use Rattle.context_types.specs.Lists.{way_context};
ghost use Rattle.context_types.specs.Standing.{Grows, Says, StandsContext, StandsGuard};

use crate::lists::copied;
use crate::types::ContextTypes;
use error_context::Context;
use guards::Guard;
use std::alloc::{AllocError, Global};

/// In which way a condition chooses.
#[derive(Clone, Copy, Debug)]
pub enum Way {
    /// `and`: first comes the context of the left side for none; then that of the right side, and that of the left side for
    /// what it gives away by itself.
    And,
    /// `or`: the same.
    Or,
    /// A choice of an if-expression: first comes the context of its condition; then that of its value, and that of what comes
    /// else.
    Choice,
}

impl<'a> ContextTypes<'a> {
    /// What two lists of contexts come to, one by one, with a first context that is before each.
    pub fn decide_each(
        &mut self,
        alloc: Global,
        way: Way,
        guard: &Guard,
        has_effects: bool,
        first: &Context,
        a: &[Context],
        b: &[Context],
    ) -> Result<Vec<Context>, AllocError>
        requires guard { StandsGuard self.old guard.now }
        requires first { StandsContext self.old first.now }
        requires left { All (StandsContext self.old) a.now }
        requires right { All (StandsContext self.old) b.now }
        ensures contexts { IfOk result (λ made. (rules : Rules) (cond : ExprTree) → Says self.old rules cond guard.now → map (context_in self.new) made.items
            ≡ zipped (way_context way rules cond has_effects (context_in self.old first.now)) (map (context_in self.old) a.now) (map (context_in self.old) b.now)) }
        ensures stand { IfOk result (λ made. All (StandsContext self.new) made.items) }
        ensures grows { Grows self.old self.new }
    {
        let mut made = Vec::new(alloc);
        let count = lesser(a.len(), b.len());
        for i in 0..count {
            let one = self.decide(alloc, way, guard, has_effects, first, &a[i], &b[i])?;
            made.push(one)?;
        }
        Ok(made)
    }

    // What two contexts come to, with a first one.
    fn decide(
        &mut self,
        alloc: Global,
        way: Way,
        guard: &Guard,
        has_effects: bool,
        first: &Context,
        a: &Context,
        b: &Context,
    ) -> Result<Context, AllocError>
        requires guard { StandsGuard self.old guard.now }
        requires first { StandsContext self.old first.now }
        requires left { StandsContext self.old a.now }
        requires right { StandsContext self.old b.now }
        ensures context { IfOk result (λ made. (rules : Rules) (cond : ExprTree) → Says self.old rules cond guard.now → context_in self.new made
            ≡ way_context way rules cond has_effects (context_in self.old first.now) (context_in self.old a.now) (context_in self.old b.now)) }
        ensures stands { IfOk result (StandsContext self.new) }
        ensures grows { Grows self.old self.new }
    {
        let first = copied(alloc, first)?;
        let a = copied(alloc, a)?;
        let b = copied(alloc, b)?;
        match way {
            Way::And => self.decide_and(alloc, guard, has_effects, first, a, b),
            Way::Or => self.decide_or(alloc, guard, has_effects, first, a, b),
            Way::Choice => self.decide_choice(alloc, guard, has_effects, first, a, b),
        }
    }

    // `and`: by the contexts of the left side for none, of the right side, and of the left side for a part of the set.
    #[tactic(auto, using(crate::proofs::GrowFacts::grows_then, crate::proofs::GrowFacts::context_on, crate::proofs::GrowFacts::guard_on))]
    fn decide_and(
        &mut self,
        alloc: Global,
        guard: &Guard,
        has_effects: bool,
        never_left: Context,
        right: Context,
        left: Context,
    ) -> Result<Context, AllocError>
        requires guard { StandsGuard self.old guard.now }
        requires first { StandsContext self.old never_left }
        requires right { StandsContext self.old right }
        requires left { StandsContext self.old left }
        ensures context { IfOk result (λ made. (rules : Rules) (cond : ExprTree) → Says self.old rules cond guard.now → context_in self.new made
            ≡ and_one_context rules cond has_effects (context_in self.old never_left) (context_in self.old right) (context_in self.old left)) }
        ensures stands { IfOk result (StandsContext self.new) }
        ensures grows { Grows self.old self.new }
    {
        let passed = self.pass(alloc, has_effects, right)?;
        let decided = self.branch(alloc, guard, passed, left)?;
        let made = self.join(alloc, never_left, decided)?;
        Ok(made)
    }

    // `or`: likewise.
    #[tactic(auto, using(crate::proofs::GrowFacts::grows_then, crate::proofs::GrowFacts::context_on, crate::proofs::GrowFacts::guard_on))]
    fn decide_or(
        &mut self,
        alloc: Global,
        guard: &Guard,
        has_effects: bool,
        never_left: Context,
        right: Context,
        left: Context,
    ) -> Result<Context, AllocError>
        requires guard { StandsGuard self.old guard.now }
        requires first { StandsContext self.old never_left }
        requires right { StandsContext self.old right }
        requires left { StandsContext self.old left }
        ensures context { IfOk result (λ made. (rules : Rules) (cond : ExprTree) → Says self.old rules cond guard.now → context_in self.new made
            ≡ or_one_context rules cond has_effects (context_in self.old never_left) (context_in self.old right) (context_in self.old left)) }
        ensures stands { IfOk result (StandsContext self.new) }
        ensures grows { Grows self.old self.new }
    {
        let passed = self.pass(alloc, has_effects, right)?;
        let decided = self.branch(alloc, guard, left, passed)?;
        let made = self.join(alloc, never_left, decided)?;
        Ok(made)
    }

    // A choice: by the contexts of the condition, of the value, and of what comes else.
    #[tactic(auto, using(crate::proofs::GrowFacts::grows_then, crate::proofs::GrowFacts::context_on, crate::proofs::GrowFacts::guard_on))]
    fn decide_choice(
        &mut self,
        alloc: Global,
        guard: &Guard,
        has_effects: bool,
        cond_fails: Context,
        value: Context,
        rest: Context,
    ) -> Result<Context, AllocError>
        requires guard { StandsGuard self.old guard.now }
        requires first { StandsContext self.old cond_fails }
        requires value { StandsContext self.old value }
        requires rest { StandsContext self.old rest }
        ensures context { IfOk result (λ made. (rules : Rules) (cond : ExprTree) → Says self.old rules cond guard.now → context_in self.new made
            ≡ choice_one_context rules cond has_effects (context_in self.old cond_fails) (context_in self.old value) (context_in self.old rest)) }
        ensures stands { IfOk result (StandsContext self.new) }
        ensures grows { Grows self.old self.new }
    {
        let decided = self.branch(alloc, guard, value, rest)?;
        let passed = self.pass(alloc, has_effects, decided)?;
        let made = self.join(alloc, cond_fails, passed)?;
        Ok(made)
    }
}

// The lesser of two numbers.
fn lesser(a: usize, b: usize) -> usize
    ensures first { result ≤ a }
    ensures second { result ≤ b }
    ensures one { a ≤ b → result ≡ a }
    ensures other { b ≤ a → result ≡ b }
{
    if a < b { a } else { b }
}
