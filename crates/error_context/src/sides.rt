//! What becomes of one list of entries, and of two.
ghost use Rattle.std.specs.Prelude.{◌≡◌, ◌++◌, [], ℕ, true, IfOk};
ghost use Rattle.type_arena.specs.Arena.{store_of};
ghost use Rattle.type_arena.specs.Meaning.{term_of};
ghost use Rattle.type_arena.specs.Term.{Term, never};
ghost use Rattle.type_normal.specs.Adds.{Adds};
ghost use Rattle.type_normal.specs.Growing.{given_refs};
ghost use Rattle.error_context.specs.Entries.{AscendFrom, AreClean, AreThere, HaveTypes, IsContext, context_of, entry_or, is_cut, locals_in, refs_in};
ghost use Rattle.error_context.specs.Steps.{step_term, made_of, takes};

use crate::combining::combined;
use crate::pairs::{aligned, alone};
use crate::steps::Step;
use luau_tree::{List, LocalId};
use std::alloc::{AllocError, Global};
use type_arena::{Arena, TypeRef};
use type_fields::{Plain, plain_type};

/// What becomes of what each local has in two lists of entries, where it has never without an
/// entry.
pub(crate) fn both(
    alloc: Global,
    arena: &mut Arena<'_>,
    step: &Step,
    a: &List<(LocalId, TypeRef)>,
    b: &List<(LocalId, TypeRef)>,
) -> Result<List<(LocalId, TypeRef)>, AllocError>
    requires left { IsContext arena.old a.now }
    requires right { IsContext arena.old b.now }
    requires absent { step_term step.now never never ≡ never }
    requires taken { (type : Term) → is_cut type ≡ true → takes step.now type ≡ true }
    ensures entries { IfOk result (λ made. (local : ℕ) → context_of arena.new made local
        ≡ step_term step.now (context_of arena.old a.now local) (context_of arena.old b.now local)) }
    ensures context { IfOk result (IsContext arena.new) }
    ensures clean { IfOk result (λ made. AreClean arena.old arena.new
        (refs_in a.now ++ refs_in b.now) made) }
    ensures adds { Adds arena.old arena.new (given_refs (refs_in a.now ++ refs_in b.now)) [] }
{
    let absent = plain_type(alloc, arena, Plain::Never)?;
    let lefts = a.as_slice();
    let rights = b.as_slice();
    let pairs = aligned(alloc, absent, lefts, rights)?;
    let sides = pairs.as_slice();
    let made = combined(alloc, arena, step, sides)?;
    Ok(made)
}

/// What becomes of each entry of one list.
pub(crate) fn one(
    alloc: Global,
    arena: &mut Arena<'_>,
    step: &Step,
    a: &[(LocalId, TypeRef)],
) -> Result<List<(LocalId, TypeRef)>, AllocError>
    requires sorted { AscendFrom 0 (locals_in a.now) }
    requires there { AreThere arena.old (refs_in a.now) }
    requires taken { HaveTypes arena.old (takes step.now) (refs_in a.now) }
    ensures entries { IfOk result (λ made. (local : ℕ) → context_of arena.new made local
        ≡ entry_or never (λ at. made_of step.now (term_of (store_of arena.old)) at at) a.now local) }
    ensures context { IfOk result (IsContext arena.new) }
    ensures clean { IfOk result (λ made. AreClean arena.old arena.new (refs_in a.now) made) }
    ensures adds { Adds arena.old arena.new (given_refs (refs_in a.now)) [] }
{
    let pairs = alone(alloc, a)?;
    let sides = pairs.as_slice();
    let made = combined(alloc, arena, step, sides)?;
    Ok(made)
}
