//! Types that tests speak of.
ghost use Rattle.std.specs.Prelude.{◌≡◌, [], IfOk};
ghost use Rattle.type_arena.specs.Arena.{store_of};
ghost use Rattle.type_arena.specs.Meaning.{term_of};
ghost use Rattle.type_fields.specs.Plain.{plain_term};
ghost use Rattle.type_normal.specs.Adds.{Adds};
ghost use Rattle.type_normal.specs.Growing.{given_refs};
ghost use Rattle.type_normal.specs.Kinds.{text_type as text_term};
ghost use Rattle.type_normal.specs.Operations.{not_free as not_free_term};
ghost use Rattle.guards.specs.Claims.{claim_type};
ghost use Rattle.guards.specs.Own.{IsOwn};

use crate::joining::{Join, type_together};
use std::alloc::{AllocError, Global};
use type_arena::{Arena, Label, TypeRef};
use type_fields::{Plain, plain_type, text_type};
use type_normal::not_free;

/// A type that a test speaks of: the values of a kind or all but those, the tables and the values of no other kind, one
/// string or all values but it.
#[derive(Clone, Copy)]
pub(crate) enum Claim<'a> {
    Is(Plain),
    IsNot(Plain),
    TableOrOther,
    Text(&'a [u8]),
    NotText(&'a [u8]),
}

/// The reference of such a type.
pub(crate) fn type_of(
    alloc: Global,
    arena: &mut Arena<'_>,
    claim: &Claim<'_>,
) -> Result<TypeRef, AllocError>
    ensures term { IfOk result (λ at. term_of (store_of arena.new) at ≡ claim_type claim.now) }
    ensures own { IfOk result (λ at. IsOwn arena.new at) }
    ensures adds { Adds arena.old arena.new (given_refs []) [] }
{
    match claim {
        Claim::Is(kind) => plain(alloc, arena, *kind),
        Claim::IsNot(kind) => {
            let at = plain(alloc, arena, *kind)?;
            let others = complement(alloc, arena, at)?;
            Ok(others)
        }
        Claim::TableOrOther => {
            let table = plain(alloc, arena, Plain::AnyTable)?;
            let other = plain(alloc, arena, Plain::Other)?;
            let either = type_together(alloc, arena, Join::Either, table, other)?;
            Ok(either)
        }
        Claim::Text(bytes) => text(alloc, arena, bytes),
        Claim::NotText(bytes) => {
            let at = text(alloc, arena, bytes)?;
            let others = complement(alloc, arena, at)?;
            Ok(others)
        }
    }
}

/// The reference of a type of whole kinds.
pub(crate) fn plain(
    alloc: Global,
    arena: &mut Arena<'_>,
    kind: Plain,
) -> Result<TypeRef, AllocError>
    ensures term { IfOk result (λ at. term_of (store_of arena.new) at ≡ plain_term kind) }
    ensures own { IfOk result (λ at. IsOwn arena.new at) }
    ensures adds { Adds arena.old arena.new (given_refs []) [] }
{
    let at = plain_type(alloc, arena, kind)?;
    Ok(at)
}

// The reference of the type of one string.
fn text(alloc: Global, arena: &mut Arena<'_>, bytes: &[u8]) -> Result<TypeRef, AllocError>
    ensures term { IfOk result (λ at. term_of (store_of arena.new) at ≡ text_term bytes.now) }
    ensures own { IfOk result (λ at. IsOwn arena.new at) }
    ensures adds { Adds arena.old arena.new (given_refs []) [] }
{
    let label = Label::of(Vec::from_slice(alloc, bytes)?);
    let at = text_type(alloc, arena, label)?;
    Ok(at)
}

// The reference of all values but those of a type.
fn complement(alloc: Global, arena: &mut Arena<'_>, at: TypeRef) -> Result<TypeRef, AllocError>
    requires { IsOwn arena.old at }
    ensures term { IfOk result (λ new. term_of (store_of arena.new) new ≡ not_free_term (term_of (store_of arena.old) at)) }
    ensures own { IfOk result (λ new. IsOwn arena.new new) }
    ensures adds { Adds arena.old arena.new (given_refs []) [] }
{
    let others = not_free(alloc, arena, at)?;
    Ok(others)
}
