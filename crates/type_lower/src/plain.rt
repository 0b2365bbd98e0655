//! Types that a name, or a form of syntax, means by itself.
ghost use Rattle.std.specs.Prelude.{◌≡◌, ◌↔◌, [], List as Items, IsTrue, IfOk, OnErr, if◌then◌else◌};
ghost use Rattle.type_arena.specs.Store.{field_types};
ghost use Rattle.type_arena.specs.declared.node.TypeRef.{TypeRef as Ref};
ghost use Rattle.type_normal.specs.Adds.{Adds};
ghost use Rattle.type_normal.specs.Kinds.{text_type as text_term, true_type, false_type};
ghost use Rattle.type_normal.specs.Growing.{given_refs};
ghost use Rattle.type_fields.specs.Plain.{plain_term};
ghost use Rattle.annotations.specs.Lowered.{own_type, named_type, raw_kind};
ghost use Rattle.luau_tree.specs.Tree.{Named};
ghost use Rattle.luau_tree.specs.View.{view_types};
ghost use Rattle.type_lower.specs.Made.{Made, AreThere};
ghost use Rattle.type_lower.specs.Visible.{known_in};

use crate::aliases::Aliases;
use crate::props::label;
use luau_tree::{Bytes, TypeSyntax};
use std::alloc::{AllocError, Global};
use type_arena::{Arena, TypeRef};
use type_fields::{Plain, plain_type, text_type};

/// The type of `true` or of `false`.
pub(crate) fn of_truth(truth: bool) -> Plain
    ensures { plain_term result ≡ (if truth then true_type else false_type) }
{
    if truth { Plain::True } else { Plain::False }
}

/// The type that a name means where no alias has it.
pub(crate) fn own_plain(name: &[u8]) -> Plain
    ensures { plain_term result ≡ own_type name.now }
{
    if b"boolean".as_slice() == name {
        return Plain::Boolean;
    }
    if b"number".as_slice() == name {
        return Plain::Number;
    }
    if b"string".as_slice() == name {
        return Plain::AnyString;
    }
    if b"never".as_slice() == name {
        return Plain::Never;
    }
    if b"thread".as_slice() == name
        || b"buffer".as_slice() == name
        || b"vector".as_slice() == name
    {
        return Plain::Other;
    }
    Plain::Unknown
}

/// A reference to a type that is meant by itself.
pub(crate) fn plain_ref(
    alloc: Global,
    arena: &mut Arena<'_>,
    plain: Plain,
) -> Result<TypeRef, AllocError>
    ensures made { IfOk result (λ at. (given : Items Ref) → Made arena.old arena.new given at (plain_term plain)) }
    ensures err { OnErr result ((given : Items Ref) → Adds arena.old arena.new (given_refs given) []) }
{
    let at = plain_type(alloc, arena, plain)?;
    Ok(at)
}

/// A reference to the type of one string.
pub(crate) fn text_ref(
    alloc: Global,
    arena: &mut Arena<'_>,
    bytes: &Bytes,
) -> Result<TypeRef, AllocError>
    ensures made { IfOk result (λ at. (given : Items Ref) → Made arena.old arena.new given at (text_term bytes.now)) }
    ensures err { OnErr result ((given : Items Ref) → Adds arena.old arena.new (given_refs given) []) }
{
    let text = label(alloc, bytes)?;
    let at = text_type(alloc, arena, text)?;
    Ok(at)
}

/// A reference to the type of a name.
pub(crate) fn named_ref(
    alloc: Global,
    arena: &mut Arena<'_>,
    aliases: &Aliases,
    name: &Bytes,
) -> Result<TypeRef, AllocError>
    requires { AreThere arena.old (field_types aliases.now) }
    ensures made { IfOk result (λ at. Made arena.old arena.new (field_types aliases.now) at (named_type (known_in arena.old aliases.now) name.now)) }
    ensures err { OnErr result (Adds arena.old arena.new (given_refs (field_types aliases.now)) []) }
{
    if name.as_slice() == b"unknown".as_slice() {
        return plain_ref(alloc, arena, Plain::Unknown);
    }
    match aliases.get(name) {
        Some(at) => Ok(at),
        None => plain_ref(alloc, arena, own_plain(name.as_slice())),
    }
}

// Whether a name has no prefix and no arguments.
fn is_bare(prefix: &Option<Bytes>, args: &[TypeSyntax]) -> bool
    ensures { IsTrue result ↔ ((prefix.now ≡ None) × (args.now ≡ [])) }
{
    prefix.is_none() && args.is_empty()
}

/// A reference to the type of a name with a prefix and arguments, where it has them.
pub(crate) fn form_ref(
    alloc: Global,
    arena: &mut Arena<'_>,
    aliases: &Aliases,
    prefix: &Option<Bytes>,
    name: &Bytes,
    args: &[TypeSyntax],
) -> Result<TypeRef, AllocError>
    requires { AreThere arena.old (field_types aliases.now) }
    ensures made { IfOk result (λ at. Made arena.old arena.new (field_types aliases.now) at (raw_kind (known_in arena.old aliases.now) (Named prefix.now name.now (view_types args.now)))) }
    ensures err { OnErr result (Adds arena.old arena.new (given_refs (field_types aliases.now)) []) }
{
    let bare = is_bare(prefix, args);
    if bare {
        named_ref(alloc, arena, aliases, name)
    } else {
        plain_ref(alloc, arena, Plain::Unknown)
    }
}
