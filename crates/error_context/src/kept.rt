//! One entry, and entries without those of some locals.
ghost use Rattle.std.specs.Prelude.{◌≡◌, ◌==◌, IsTrue, IfOk};
ghost use Rattle.std.specs.List.{list_any};
ghost use Rattle.type_arena.specs.Arena.{store_of};
ghost use Rattle.type_arena.specs.Store.{has as has_node};
ghost use Rattle.error_context.specs.Entries.{entry_of_one, entries_without};

use luau_tree::{List, LocalId};
use std::alloc::{AllocError, Global};
use type_arena::{Arena, TypeRef};
use type_normal::is_empty;

/// The entry of one local, unless its type is empty.
pub(crate) fn entry(
    alloc: Global,
    arena: &Arena<'_>,
    local: LocalId,
    at: TypeRef,
) -> Result<List<(LocalId, TypeRef)>, AllocError>
    requires { IsTrue (has_node (store_of arena.now) at) }
    ensures { IfOk result (λ made. made ≡ entry_of_one arena.now local at) }
{
    let mut made = Vec::new(alloc);
    let empty = is_empty(arena, at);
    if empty {
        return Ok(List::of(made));
    }
    made.push((local, at))?;
    Ok(List::of(made))
}

/// The entries of the locals that are not among some.
pub(crate) fn retained(
    mut entries: Vec<(LocalId, TypeRef)>,
    without: &[LocalId],
) -> Vec<(LocalId, TypeRef)>
    ensures { result.items ≡ entries_without without.now entries.items }
{
    entries.retain(|entry| !is_among(without, entry.0));
    entries
}

// Whether a local is among some.
fn is_among(locals: &[LocalId], local: LocalId) -> bool
    ensures { result ≡ list_any (λ other. other.0 == local.0) locals.now }
{
    locals.iter().any(|other| other.0 == local.0)
}
