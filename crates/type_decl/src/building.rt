ghost use Rattle.std.specs.Prelude.{[], ◌∷◌, map, option_map, IfOk};
ghost use Rattle.builtin_table.specs.Standard.{declared_by as declared_of};
ghost use Rattle.type_decl.specs.Signatures.{term_of_kinds, signature_of};
ghost use Rattle.type_decl.specs.Tables.{Grew, Mean, MeanMaybe, IsMeant};

use crate::nodes::{node_of, parts_of};
use crate::sig::Sig;
use builtin_table::{Kinds, Line, declared_by};
use std::alloc::{AllocError, Global};
use type_arena::{Arena, List, TypeRef};

/// The reference of a type of the table.
pub(crate) fn type_ref(
    alloc: Global,
    arena: &mut Arena<'_>,
    kinds: Kinds,
) -> Result<TypeRef, AllocError>
    ensures means { IfOk result (λ at. Mean arena.new (at ∷ []) (term_of_kinds kinds ∷ [])) }
    ensures grew { IfOk result (λ at. Grew arena.old arena.new) }
{
    let node = node_of(alloc, parts_of(kinds))?;
    let at = arena.intern(node)?;
    Ok(at)
}

/// The references of some types of the table.
pub(crate) fn type_refs(
    alloc: Global,
    arena: &mut Arena<'_>,
    types: &[Kinds],
) -> Result<List<TypeRef>, AllocError>
    ensures means { IfOk result (λ refs. Mean arena.new refs (map term_of_kinds types.now)) }
    ensures grew { IfOk result (λ refs. Grew arena.old arena.new) }
{
    let mut refs = Vec::new(alloc);
    for kinds in types {
        let at = type_ref(alloc, arena, *kinds)?;
        refs.push(at)?;
    }
    Ok(List::of(refs))
}

/// The reference of a type of the table, if there is one.
pub(crate) fn maybe_type_ref(
    alloc: Global,
    arena: &mut Arena<'_>,
    kinds: Option<Kinds>,
) -> Result<Option<TypeRef>, AllocError>
    ensures means { IfOk result (λ at. MeanMaybe arena.new at (option_map term_of_kinds kinds)) }
    ensures grew { IfOk result (λ at. Grew arena.old arena.new) }
{
    match kinds {
        None => Ok(None),
        Some(kinds) => Ok(Some(type_ref(alloc, arena, kinds)?)),
    }
}

/// What a line of the table says, as references.
pub(crate) fn sig_of(alloc: Global, arena: &mut Arena<'_>, line: Line) -> Result<Sig, AllocError>
    ensures means { IfOk result (λ sig. IsMeant arena.new sig (signature_of (declared_of line))) }
    ensures grew { IfOk result (λ sig. Grew arena.old arena.new) }
{
    let declaration = declared_by(line);
    let params = type_refs(alloc, arena, declaration.params)?;
    let rest = maybe_type_ref(alloc, arena, declaration.rest)?;
    let results = type_refs(alloc, arena, declaration.results)?;
    let more = maybe_type_ref(alloc, arena, declaration.more)?;
    Ok(Sig {
        params,
        rest,
        results,
        more,
        checked: declaration.checked,
        quiet: declaration.quiet,
    })
}
