//! Two lists of entries side by side.
ghost use Rattle.std.specs.Prelude.{◌≡◌, ◌∷◌, [], ⊤, ℕ, IfOk, All, Contains, Some, None};
ghost use Rattle.error_context.specs.Entries.{AscendFrom, locals_in, refs_in};
ghost use Rattle.error_context.specs.Pairs.{AreAligned, ref_or, IsNext, past as past_list, alone as alone_pairs};

use luau_tree::LocalId;
use std::alloc::{AllocError, Global};
use type_arena::TypeRef;

/// A local with what it has in each of two lists of entries.
#[derive(Clone, Copy, Debug)]
pub(crate) struct Pair {
    pub(crate) local: LocalId,
    pub(crate) left: TypeRef,
    pub(crate) right: TypeRef,
}

/// The locals of two lists of entries, in order, with what each has; without an entry it has the
/// absent type.
pub(crate) fn aligned(
    alloc: Global,
    absent: TypeRef,
    a: &[(LocalId, TypeRef)],
    b: &[(LocalId, TypeRef)],
) -> Result<Vec<Pair>, AllocError>
    requires left { AscendFrom 0 (locals_in a.now) }
    requires right { AscendFrom 0 (locals_in b.now) }
    ensures { IfOk result (λ pairs. AreAligned absent a.now b.now pairs.items) }
{
    let mut pairs = Vec::new(alloc);
    let mut lefts = a;
    let mut rights = b;
    while let Some(pair) = first(absent, lefts, rights) {
        lefts = past(lefts, pair.local);
        rights = past(rights, pair.local);
        pairs.push(pair)?;
    }
    Ok(pairs)
}

// The least local of two lists in order, with what it has.
fn first(absent: TypeRef, a: &[(LocalId, TypeRef)], b: &[(LocalId, TypeRef)]) -> Option<Pair>
    ensures { IsNext absent a.now b.now result }
{
    match (a.first(), b.first()) {
        (None, None) => None,
        (Some((local, left)), None) => Some(Pair {
            local: *local,
            left: *left,
            right: absent,
        }),
        (None, Some((local, right))) => Some(Pair {
            local: *local,
            left: absent,
            right: *right,
        }),
        (Some((local, left)), Some((other, right))) => {
            if local.0 < other.0 {
                Some(Pair {
                    local: *local,
                    left: *left,
                    right: absent,
                })
            } else if other.0 < local.0 {
                Some(Pair {
                    local: *other,
                    left: absent,
                    right: *right,
                })
            } else {
                Some(Pair {
                    local: *local,
                    left: *left,
                    right: *right,
                })
            }
        }
    }
}

// A list without its first entry, if that is of this local.
fn past(entries: &[(LocalId, TypeRef)], local: LocalId) -> &[(LocalId, TypeRef)]
    ensures { result.now ≡ past_list local.0 entries.now }
{
    match entries {
        [first, rest @ ..] => { if first.0.0 == local.0 { rest } else { entries } }
        [] => entries,
    }
}

/// The entries of one list, each on both sides.
pub(crate) fn alone(alloc: Global, entries: &[(LocalId, TypeRef)]) -> Result<Vec<Pair>, AllocError>
    ensures { IfOk result (λ pairs. pairs.items ≡ alone_pairs entries.now) }
{
    let mut pairs = Vec::new(alloc);
    for entry in entries {
        pairs.push(Pair {
            local: entry.0,
            left: entry.1,
            right: entry.1,
        })?;
    }
    Ok(pairs)
}
