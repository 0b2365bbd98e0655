//! Entries that are made of pairs.
ghost use Rattle.std.specs.Prelude.{◌≡◌, [], ℕ, IfOk};
ghost use Rattle.type_arena.specs.Arena.{store_of};
ghost use Rattle.type_arena.specs.Meaning.{term_of};
ghost use Rattle.type_normal.specs.Adds.{Adds};
ghost use Rattle.type_normal.specs.Growing.{given_refs};
ghost use Rattle.error_context.specs.Entries.{AreClean, AreThere, HaveTypes, IsContext, context_of, AscendFrom};
ghost use Rattle.error_context.specs.Pairs.{by_pairs, pair_locals, pair_refs};
ghost use Rattle.error_context.specs.Steps.{made_of, takes};

use crate::pairs::Pair;
use crate::steps::{Step, stepped};
use luau_tree::{List, LocalId};
use std::alloc::{AllocError, Global};
use type_arena::{Arena, TypeRef};
use type_normal::is_empty;

/// What becomes of each pair, where that is not empty.
pub(crate) fn combined(
    alloc: Global,
    arena: &mut Arena<'_>,
    step: &Step,
    pairs: &[Pair],
) -> Result<List<(LocalId, TypeRef)>, AllocError>
    requires there { AreThere arena.old (pair_refs pairs.now) }
    requires taken { HaveTypes arena.old (takes step.now) (pair_refs pairs.now) }
    requires sorted { AscendFrom 0 (pair_locals pairs.now) }
    ensures entries { IfOk result (λ made. (local : ℕ) → context_of arena.new made local
        ≡ by_pairs (made_of step.now (term_of (store_of arena.old))) pairs.now local) }
    ensures context { IfOk result (IsContext arena.new) }
    ensures clean { IfOk result (λ made. AreClean arena.old arena.new (pair_refs pairs.now) made) }
    ensures adds { Adds arena.old arena.new (given_refs (pair_refs pairs.now)) [] }
{
    let mut made = Vec::new(alloc);
    for pair in pairs {
        let at = stepped(alloc, arena, step, pair.left, pair.right)?;
        let empty = is_empty(arena, at);
        if !empty {
            made.push((pair.local, at))?;
        }
    }
    Ok(List::of(made))
}
