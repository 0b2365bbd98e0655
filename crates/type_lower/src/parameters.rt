//! The types of the parameters of functions.
ghost use Rattle.std.specs.Prelude.{◌≡◌, [], length, map, take, IfOk, OnErr, All};
ghost use Rattle.luau_tree.specs.View.{view_binds, view_body, view_maybe_type};
ghost use Rattle.type_arena.specs.Arena.{store_of};
ghost use Rattle.type_arena.specs.Meaning.{term_of};
ghost use Rattle.type_arena.specs.Store.{field_types};
ghost use Rattle.type_normal.specs.Adds.{Adds};
ghost use Rattle.type_normal.specs.Growing.{given_refs, IsClean};
ghost use Rattle.annotations.specs.Annotated.{param_types as param_terms, written_type};
ghost use Rattle.type_lower.specs.Made.{Made, MadeTypes, AreThere};
ghost use Rattle.type_lower.specs.Parameters.{known_inside, types_inside};
ghost use Rattle.type_lower.specs.Visible.{known_in};

use crate::aliases::Aliases;
use crate::lowering::lower;
use crate::plain::plain_ref;
use crate::visible::put_generics;
use luau_tree::{Bind, Body, TypeSyntax};
use std::alloc::{AllocError, Global};
use type_arena::{Arena, TypeRef};
use type_fields::Plain;

/// A function is entered: its generics become visible, and the answer has a reference to the type of each of its parameters,
/// in their order, which is unknown where none is written. Behind the function, `close` with the number of names before it
/// takes its generics out. After want of memory the names before them are as they were.
pub fn enter(
    alloc: Global,
    arena: &mut Arena<'_>,
    aliases: &mut Aliases,
    body: &Body,
) -> Result<Vec<TypeRef>, AllocError>
    requires { AreThere arena.old (field_types aliases.old) }
    ensures known { IfOk result (λ types. known_in arena.new aliases.new ≡ known_inside (known_in arena.old aliases.old) (view_body body.now)) }
    ensures terms { IfOk result (λ types. map (term_of (store_of arena.new)) types.items ≡ types_inside (known_in arena.old aliases.old) (view_body body.now)) }

    // The names and the types are in the arena, which only gets nodes, and each home that is reached from them may be used.
    ensures there { IfOk result (λ types. AreThere arena.new (field_types aliases.new)) }
    ensures types_there { IfOk result (λ types. AreThere arena.new types.items) }
    ensures adds { Adds arena.old arena.new (given_refs (field_types aliases.old)) [] }
    ensures clean { IfOk result (λ types. All (IsClean arena.old arena.new (given_refs (field_types aliases.old))) (field_types aliases.new)) }
    ensures types_clean { IfOk result (λ types. All (IsClean arena.old arena.new (given_refs (field_types aliases.old))) types.items) }
    ensures kept { take (length aliases.old) aliases.new ≡ aliases.old }
{
    let generics = body.generics.as_slice();
    put_generics(alloc, arena, aliases, generics)?;
    let params = body.params.as_slice();
    let types = param_types(alloc, arena, aliases, params)?;
    Ok(types)
}

// A reference to the type of each parameter, in their order.
fn param_types(
    alloc: Global,
    arena: &mut Arena<'_>,
    aliases: &Aliases,
    params: &[Bind],
) -> Result<Vec<TypeRef>, AllocError>
    requires { AreThere arena.old (field_types aliases.now) }
    ensures made { IfOk result (λ types. MadeTypes arena.old arena.new (field_types aliases.now) types.items (param_terms (known_in arena.old aliases.now) (view_binds params.now))) }
    ensures err { OnErr result (Adds arena.old arena.new (given_refs (field_types aliases.now)) []) }
{
    let mut types = Vec::new(alloc);
    for param in params {
        let at = written_ref(alloc, arena, aliases, &param.typ)?;
        types.push(at)?;
    }
    Ok(types)
}

// A reference to the type that is written for a parameter.
fn written_ref(
    alloc: Global,
    arena: &mut Arena<'_>,
    aliases: &Aliases,
    typ: &Option<TypeSyntax>,
) -> Result<TypeRef, AllocError>
    requires { AreThere arena.old (field_types aliases.now) }
    ensures made { IfOk result (λ at. Made arena.old arena.new (field_types aliases.now) at (written_type (known_in arena.old aliases.now) (view_maybe_type typ.now))) }
    ensures err { OnErr result (Adds arena.old arena.new (given_refs (field_types aliases.now)) []) }
{
    match typ {
        None => plain_ref(alloc, arena, Plain::Unknown),
        Some(typ) => {
            let at = lower(alloc, arena, aliases, typ)?;
            Ok(at)
        }
    }
}
