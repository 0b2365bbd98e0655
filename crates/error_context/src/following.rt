//! A part of the code, and then the rest.
ghost use Rattle.std.specs.Prelude.{◌≡◌, ◌++◌, [], ℕ, IfOk};
ghost use Rattle.type_normal.specs.Adds.{Adds};
ghost use Rattle.type_normal.specs.Growing.{given_refs};
ghost use Rattle.report_rules.specs.Context.{pass as passed_on, followed as followed_by};
ghost use Rattle.error_context.specs.Entries.{AreClean, IsContext, context_of, refs_in};

use crate::context::Context;
use crate::operations::{join, strip_all};
use std::alloc::{AllocError, Global};
use type_arena::Arena;

/// The context behind a part, before that part: what is left of it where the part has effects.
pub fn pass(
    alloc: Global,
    arena: &mut Arena<'_>,
    has_effects: bool,
    a: Context,
) -> Result<Context, AllocError>
    requires { IsContext arena.old a.entries }
    ensures sets { IfOk result (λ made. (local : ℕ) → context_of arena.new made.entries local
        ≡ passed_on has_effects (context_of arena.old a.entries) local) }
    ensures context { IfOk result (λ made. IsContext arena.new made.entries) }
    ensures clean { IfOk result (λ made. AreClean arena.old arena.new
        (refs_in a.entries) made.entries) }
    ensures adds { Adds arena.old arena.new (given_refs (refs_in a.entries)) [] }
{
    if has_effects {
        return strip_all(alloc, arena, &a);
    }
    Ok(a)
}

/// Code fails in a part or in the rest behind it: by the part's context, or by that of the rest,
/// of which what is left counts where the part has effects.
pub fn followed(
    alloc: Global,
    arena: &mut Arena<'_>,
    part: Context,
    has_effects: bool,
    rest: Context,
) -> Result<Context, AllocError>
    requires part { IsContext arena.old part.entries }
    requires rest { IsContext arena.old rest.entries }
    ensures sets { IfOk result (λ made. (local : ℕ) → context_of arena.new made.entries local
        ≡ followed_by (context_of arena.old part.entries) has_effects
        (context_of arena.old rest.entries) local) }
    ensures context { IfOk result (λ made. IsContext arena.new made.entries) }
    ensures clean { IfOk result (λ made. AreClean arena.old arena.new
        (refs_in part.entries ++ refs_in rest.entries) made.entries) }
    ensures adds { Adds arena.old arena.new
        (given_refs (refs_in part.entries ++ refs_in rest.entries)) [] }
{
    let passed = pass(alloc, arena, has_effects, rest)?;
    let made = join(alloc, arena, part, passed)?;
    Ok(made)
}
