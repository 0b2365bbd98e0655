//! Names that become visible.
ghost use Rattle.std.specs.Prelude.{◌≡◌, ◌↔◌, [], length, take, IsTrue, IfOk, OnOk, OnErr, All};
ghost use Rattle.luau_tree.specs.View.{view_type, view_gens};
ghost use Rattle.type_arena.specs.Store.{field_types};
ghost use Rattle.type_normal.specs.Adds.{Adds};
ghost use Rattle.type_normal.specs.Growing.{given_refs, IsClean};
ghost use Rattle.annotations.specs.Lowered.{alias_type, with_name};
ghost use Rattle.annotations.specs.Annotated.{with_generics};
ghost use Rattle.type_lower.specs.Made.{Made, AreThere};
ghost use Rattle.type_lower.specs.Visible.{known_in};

use crate::aliases::Aliases;
use crate::lowering::lower;
use crate::plain::plain_ref;
use luau_tree::{Bytes, Gen, TypeSyntax};
use std::alloc::{AllocError, Global};
use type_arena::{Arena, TypeRef};
use type_fields::Plain;

// A reference to the type that an alias means.
fn alias_ref(
    alloc: Global,
    arena: &mut Arena<'_>,
    aliases: &Aliases,
    generics: &[Gen],
    typ: &TypeSyntax,
) -> Result<TypeRef, AllocError>
    requires { AreThere arena.old (field_types aliases.now) }
    ensures made { IfOk result (λ at. Made arena.old arena.new (field_types aliases.now) at (alias_type (known_in arena.old aliases.now) (view_gens generics.now) (view_type typ.now))) }
    ensures err { OnErr result (Adds arena.old arena.new (given_refs (field_types aliases.now)) []) }
{
    let bare = is_bare(generics);
    if !bare {
        return plain_ref(alloc, arena, Plain::Unknown);
    }
    let at = lower(alloc, arena, aliases, typ)?;
    Ok(at)
}

// Whether an alias has no parameters.
fn is_bare(generics: &[Gen]) -> bool
    ensures { IsTrue result ↔ (generics.now ≡ []) }
{
    generics.is_empty()
}

/// An alias becomes visible: its own type sees those before it alone. After want of memory the names are as before.
pub fn put_alias(
    alloc: Global,
    arena: &mut Arena<'_>,
    aliases: &mut Aliases,
    name: &Bytes,
    generics: &[Gen],
    typ: &TypeSyntax,
) -> Result<(), AllocError>
    requires { AreThere arena.old (field_types aliases.old) }
    ensures known { OnOk result (known_in arena.new aliases.new ≡ with_name name.now (alias_type (known_in arena.old aliases.old) (view_gens generics.now) (view_type typ.now)) (known_in arena.old aliases.old)) }

    // All names are in the arena, which only gets nodes, and each home that is reached from a name may be used.
    ensures there { OnOk result (AreThere arena.new (field_types aliases.new)) }
    ensures adds { Adds arena.old arena.new (given_refs (field_types aliases.old)) [] }
    ensures clean { OnOk result (All (IsClean arena.old arena.new (given_refs (field_types aliases.old))) (field_types aliases.new)) }
    ensures kept { take (length aliases.old) aliases.new ≡ aliases.old }
    ensures err { OnErr result (aliases.new ≡ aliases.old) }
{
    let at = alias_ref(alloc, arena, aliases, generics, typ)?;
    aliases.put(alloc, name, at)
}

/// The generics of a function become visible, each of which means unknown. After want of memory those before them are as
/// they were.
pub fn put_generics(
    alloc: Global,
    arena: &mut Arena<'_>,
    aliases: &mut Aliases,
    generics: &[Gen],
) -> Result<(), AllocError>
    requires { AreThere arena.old (field_types aliases.old) }
    ensures known { OnOk result (known_in arena.new aliases.new ≡ with_generics (view_gens generics.now) (known_in arena.old aliases.old)) }

    // All names are in the arena, which only gets nodes, and each home that is reached from a name may be used.
    ensures there { OnOk result (AreThere arena.new (field_types aliases.new)) }
    ensures adds { Adds arena.old arena.new (given_refs (field_types aliases.old)) [] }
    ensures clean { OnOk result (All (IsClean arena.old arena.new (given_refs (field_types aliases.old))) (field_types aliases.new)) }
    ensures kept { take (length aliases.old) aliases.new ≡ aliases.old }
{
    let at = plain_ref(alloc, arena, Plain::Unknown)?;
    for generic in generics {
        aliases.put(alloc, &generic.name, at)?;
    }
    Ok(())
}
