//! What two parts of a condition say together.
ghost use Rattle.std.specs.Prelude.{◌≡◌, [], IfOk, All};
ghost use Rattle.type_arena.specs.Arena.{store_of};
ghost use Rattle.type_arena.specs.Meaning.{term_of};
ghost use Rattle.type_normal.specs.Adds.{Adds};
ghost use Rattle.type_normal.specs.Growing.{given_refs};
ghost use Rattle.guards.specs.Lists.{entry_meant, meant, joined, together, named_meant, refs_named, refs_listed};
ghost use Rattle.guards.specs.Own.{IsOwn, IsUnknown};

use crate::listing::{Entry, Named, side_by_side};
use std::alloc::{AllocError, Global};
use type_arena::{Arena, List, TypeRef};
use type_ops::{meet, union};

/// How what two parts say of a local is joined: both hold, or one of them does.
#[derive(Clone, Copy)]
pub(crate) enum Join {
    Both,
    Either,
}

/// What two lists say together. Of a local that one list has alone nothing is known where one of two parts holds.
pub(crate) fn joined(
    alloc: Global,
    arena: &mut Arena<'_>,
    unknown: TypeRef,
    how: Join,
    left: &[Entry],
    right: &[Entry],
) -> Result<List<Entry>, AllocError>
    requires nothing { IsUnknown arena.old unknown }
    requires left { All (IsOwn arena.old) (refs_listed left.now) }
    requires right { All (IsOwn arena.old) (refs_listed right.now) }
    ensures meant { IfOk result (λ all. meant (term_of (store_of arena.new)) all ≡ joined how (meant (term_of (store_of arena.old)) left.now) (meant (term_of (store_of arena.old)) right.now)) }
    ensures own { IfOk result (λ all. All (IsOwn arena.new) (refs_listed all)) }
    ensures adds { Adds arena.old arena.new (given_refs []) [] }
{
    let pairs = side_by_side(alloc, left, right)?;
    let mut all = Vec::new(alloc);
    for named in pairs.as_slice() {
        let entry = entry_of(alloc, arena, unknown, how, named)?;
        all.push(entry)?;
    }
    Ok(List::of(all))
}

// What comes of a local that one of two lists has, or that both have.
fn entry_of(
    alloc: Global,
    arena: &mut Arena<'_>,
    unknown: TypeRef,
    how: Join,
    named: &Named,
) -> Result<Entry, AllocError>
    requires nothing { IsUnknown arena.old unknown }
    requires named { All (IsOwn arena.old) (refs_named named.now) }
    ensures meant { IfOk result (λ entry. entry_meant (term_of (store_of arena.new)) entry ≡ named_meant how (term_of (store_of arena.old)) named.now) }
    ensures own { IfOk result (λ entry. IsOwn arena.new entry.1) }
    ensures adds { Adds arena.old arena.new (given_refs []) [] }
{
    match named {
        Named::Once(local, at) => match how {
            Join::Both => Ok((*local, *at)),
            Join::Either => Ok((*local, unknown)),
        },
        Named::Twice(local, a, b) => {
            let at = type_together(alloc, arena, how, *a, *b)?;
            Ok((*local, at))
        }
    }
}

/// What two types are together.
pub(crate) fn type_together(
    alloc: Global,
    arena: &mut Arena<'_>,
    how: Join,
    a: TypeRef,
    b: TypeRef,
) -> Result<TypeRef, AllocError>
    requires first { IsOwn arena.old a }
    requires second { IsOwn arena.old b }
    ensures term { IfOk result (λ new. term_of (store_of arena.new) new ≡ together how (term_of (store_of arena.old) a) (term_of (store_of arena.old) b)) }
    ensures own { IfOk result (λ new. IsOwn arena.new new) }
    ensures adds { Adds arena.old arena.new (given_refs []) [] }
{
    match how {
        Join::Both => {
            let new = meet(alloc, arena, a, b)?;
            Ok(new)
        }
        Join::Either => {
            let new = union(alloc, arena, a, b)?;
            Ok(new)
        }
    }
}
