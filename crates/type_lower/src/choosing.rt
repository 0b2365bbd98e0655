//! Two types as one, cut up where it is made.
ghost use Rattle.std.specs.Prelude.{◌≡◌, [], ◌∷◌, IsTrue, IfOk, OnErr};
ghost use Rattle.type_arena.specs.Arena.{store_of};
ghost use Rattle.type_arena.specs.Meaning.{term_of};
ghost use Rattle.type_arena.specs.Store.{has as has_node};
ghost use Rattle.type_normal.specs.Adds.{Adds};
ghost use Rattle.type_normal.specs.Cut.{cut_up as cut_up_term};
ghost use Rattle.type_normal.specs.Kinds.{nil_type};
ghost use Rattle.type_normal.specs.Operations.{union as union_term};
ghost use Rattle.type_normal.specs.Growing.{given_refs};
ghost use Rattle.type_fields.specs.Plain.{plain_term};
ghost use Rattle.type_lower.specs.Joined.{joined, marked, of_none};
ghost use Rattle.type_lower.specs.Made.{Made};

use crate::plain::plain_ref;
use std::alloc::{AllocError, Global};
use type_arena::{Arena, TypeRef};
use type_fields::Plain;
use type_normal::cut_up;
use type_ops::{meet, union};

/// What is made of two types.
#[derive(Clone, Copy)]
pub(crate) enum Choice {
    /// The values of one of them.
    Either,
    /// The values of both.
    Both,
}

/// What is made of no types.
pub(crate) fn none_of(choice: Choice) -> Plain
    ensures { plain_term result ≡ of_none choice }
{
    match choice {
        Choice::Either => Plain::Never,
        Choice::Both => Plain::Unknown,
    }
}

/// A type, cut up.
pub(crate) fn cut(alloc: Global, arena: &mut Arena<'_>, a: TypeRef) -> Result<TypeRef, AllocError>
    requires { IsTrue (has_node (store_of arena.old) a) }
    ensures made { IfOk result (λ at. Made arena.old arena.new (a ∷ []) at (cut_up_term (term_of (store_of arena.old) a))) }
    ensures err { OnErr result (Adds arena.old arena.new (given_refs (a ∷ [])) []) }
{
    let at = cut_up(alloc, arena, a)?;
    Ok(at)
}

/// Two types as one, cut up.
pub(crate) fn join(
    alloc: Global,
    arena: &mut Arena<'_>,
    choice: Choice,
    a: TypeRef,
    b: TypeRef,
) -> Result<TypeRef, AllocError>
    requires first { IsTrue (has_node (store_of arena.old) a) }
    requires second { IsTrue (has_node (store_of arena.old) b) }
    ensures made { IfOk result (λ at. Made arena.old arena.new (a ∷ b ∷ []) at (joined choice (term_of (store_of arena.old) a) (term_of (store_of arena.old) b))) }
    ensures err { OnErr result (Adds arena.old arena.new (given_refs (a ∷ b ∷ [])) []) }
{
    match choice {
        Choice::Either => {
            let at = union(alloc, arena, a, b)?;
            cut(alloc, arena, at)
        }
        Choice::Both => {
            let at = meet(alloc, arena, a, b)?;
            cut(alloc, arena, at)
        }
    }
}

/// A type or nil, cut up.
fn or_nil(alloc: Global, arena: &mut Arena<'_>, a: TypeRef) -> Result<TypeRef, AllocError>
    requires { IsTrue (has_node (store_of arena.old) a) }
    ensures made { IfOk result (λ at. Made arena.old arena.new (a ∷ []) at (cut_up_term (union_term (term_of (store_of arena.old) a) nil_type))) }
    ensures err { OnErr result (Adds arena.old arena.new (given_refs (a ∷ [])) []) }
{
    let nil = plain_ref(alloc, arena, Plain::Nil)?;
    let at = join(alloc, arena, Choice::Either, a, nil)?;
    Ok(at)
}

/// A type with some marks behind it. What stays the same at one mark stays so at all others.
pub(crate) fn with_marks(
    alloc: Global,
    arena: &mut Arena<'_>,
    a: TypeRef,
    marks: u64,
) -> Result<TypeRef, AllocError>
    requires { IsTrue (has_node (store_of arena.old) a) }
    ensures made { IfOk result (λ at. Made arena.old arena.new (a ∷ []) at (marked marks (term_of (store_of arena.old) a))) }
    ensures err { OnErr result (Adds arena.old arena.new (given_refs (a ∷ [])) []) }
{
    let mut at = a;
    for _ in 0..marks {
        let next = or_nil(alloc, arena, at)?;
        if next == at {
            return Ok(at);
        }
        at = next;
    }
    Ok(at)
}
