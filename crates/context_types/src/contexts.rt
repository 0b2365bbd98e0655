//! Contexts.
ghost use Rattle.std.specs.Prelude.{◌≡◌, IfOk, map};
ghost use Rattle.report_rules.specs.Context.{only_for as only_for_one, join as joined, stripped, stripped_at, without as without_locals, pass as passed_on, followed as followed_by};
ghost use Rattle.report_rules.specs.Rules.{Rules, loose};
ghost use Rattle.context_types.specs.Types.{set_in, context_in};
ghost use Rattle.context_types.specs.Standing.{Grows, Stands, StandsContext};

use crate::types::ContextTypes;
use error_context::Context;
use luau_tree::LocalId;
use std::alloc::{AllocError, Global};
use type_arena::{Label, TypeRef};

impl<'a> ContextTypes<'a> {
    /// Code fails by one local alone, where its value is in a set; of a loose local nothing is known.
    pub fn only_for(
        &mut self,
        alloc: Global,
        local: LocalId,
        is_loose: bool,
        set: TypeRef,
    ) -> Result<Context, AllocError>
        requires { Stands self.old set }
        ensures context { IfOk result (λ made. (rules : Rules) → loose rules local.0 ≡ is_loose → context_in self.new made ≡ only_for_one rules local.0 (set_in self.old set)) }
        ensures stands { IfOk result (StandsContext self.new) }
        ensures grows { Grows self.old self.new }
    {
        let made = error_context::only_for(alloc, &mut self.arena, local, is_loose, set)?;
        Ok(made)
    }

    /// Code fails by one of two contexts.
    pub fn join(&mut self, alloc: Global, a: Context, b: Context) -> Result<Context, AllocError>
        requires left { StandsContext self.old a }
        requires right { StandsContext self.old b }
        ensures context { IfOk result (λ made. context_in self.new made ≡ joined (context_in self.old a) (context_in self.old b)) }
        ensures stands { IfOk result (StandsContext self.new) }
        ensures grows { Grows self.old self.new }
    {
        let made = error_context::join(alloc, &mut self.arena, a, b)?;
        Ok(made)
    }

    /// Code fails in a part or in the rest behind it.
    pub fn followed(
        &mut self,
        alloc: Global,
        part: Context,
        has_effects: bool,
        rest: Context,
    ) -> Result<Context, AllocError>
        requires part { StandsContext self.old part }
        requires rest { StandsContext self.old rest }
        ensures context { IfOk result (λ made. context_in self.new made ≡ followed_by (context_in self.old part) has_effects (context_in self.old rest)) }
        ensures stands { IfOk result (StandsContext self.new) }
        ensures grows { Grows self.old self.new }
    {
        let made = error_context::followed(alloc, &mut self.arena, part, has_effects, rest)?;
        Ok(made)
    }

    /// The context behind a part, before that part.
    pub fn pass(
        &mut self,
        alloc: Global,
        has_effects: bool,
        a: Context,
    ) -> Result<Context, AllocError>
        requires { StandsContext self.old a }
        ensures context { IfOk result (λ made. context_in self.new made ≡ passed_on has_effects (context_in self.old a)) }
        ensures stands { IfOk result (StandsContext self.new) }
        ensures grows { Grows self.old self.new }
    {
        let made = error_context::pass(alloc, &mut self.arena, has_effects, a)?;
        Ok(made)
    }

    /// What is left of a context after tables may have changed.
    pub fn strip_all(&mut self, alloc: Global, a: &Context) -> Result<Context, AllocError>
        requires { StandsContext self.old a.now }
        ensures context { IfOk result (λ made. context_in self.new made ≡ stripped (context_in self.old a.now)) }
        ensures stands { IfOk result (StandsContext self.new) }
        ensures grows { Grows self.old self.new }
    {
        let made = error_context::strip_all(alloc, &mut self.arena, a)?;
        Ok(made)
    }

    /// What is left of a context after writes to fields of one name.
    pub fn strip_name(
        &mut self,
        alloc: Global,
        a: &Context,
        name: &Label,
    ) -> Result<Context, AllocError>
        requires { StandsContext self.old a.now }
        ensures context { IfOk result (λ made. context_in self.new made ≡ stripped_at name.now (context_in self.old a.now)) }
        ensures stands { IfOk result (StandsContext self.new) }
        ensures grows { Grows self.old self.new }
    {
        let made = error_context::strip_name(alloc, &mut self.arena, a, name)?;
        Ok(made)
    }

    /// A context without some locals. Takes no memory.
    pub fn without(&self, a: Context, locals: &[LocalId]) -> Context
        requires { StandsContext self.now a }
        ensures context { context_in self.now result ≡ without_locals (map (λ l. l.0) locals.now) (context_in self.now a) }
        ensures stands { StandsContext self.now result }
    {
        error_context::restrict(a, locals)
    }
}
