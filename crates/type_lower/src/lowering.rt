//! The way through a written type.
ghost use Rattle.std.specs.Prelude.{◌≡◌, [], ◌∷◌, IsTrue, IfOk, OnErr};
ghost use Rattle.luau_tree.specs.View.{view_type, view_types, view_props};
ghost use Rattle.type_arena.specs.Arena.{store_of};
ghost use Rattle.type_arena.specs.Meaning.{term_of};
ghost use Rattle.type_arena.specs.Store.{has as has_node, field_types};
ghost use Rattle.type_normal.specs.Adds.{Adds};
ghost use Rattle.type_normal.specs.Growing.{given_refs, IsClean};
ghost use Rattle.annotations.specs.Lowered.{lowered, table_of, raw as raw_of, raw_fields as raw_fields_of};
ghost use Rattle.type_lower.specs.Joined.{all_joined};
ghost use Rattle.type_lower.specs.Made.{Made, MadeFields, AreThere};
ghost use Rattle.type_lower.specs.Visible.{known_in};

use crate::aliases::Aliases;
use crate::choosing::{Choice, cut, join, none_of, with_marks};
use crate::marks::unmarked;
use crate::plain::{form_ref, of_truth, plain_ref, text_ref};
use crate::props::{label, readable_name, row_ref};
use luau_tree::{Prop, TypeKind, TypeSyntax};
use std::alloc::{AllocError, Global};
use std::collections::BTreeMap;
use type_arena::{Arena, TypeRef};
use type_fields::Plain;

/// A reference to the type that a written type means, by the aliases that are visible. After want of memory the arena holds
/// what it held and perhaps more nodes.
pub fn lower(
    alloc: Global,
    arena: &mut Arena<'_>,
    aliases: &Aliases,
    typ: &TypeSyntax,
) -> Result<TypeRef, AllocError>
    requires { AreThere arena.old (field_types aliases.now) }
    ensures term { IfOk result (λ at. term_of (store_of arena.new) at ≡ lowered (known_in arena.old aliases.now) (view_type typ.now)) }

    // The arena only gets nodes, and each home that is reached from the answer may be used.
    ensures there { IfOk result (λ at. IsTrue (has_node (store_of arena.new) at)) }
    ensures adds { IfOk result (λ at. Adds arena.old arena.new (given_refs (field_types aliases.now)) (at ∷ [])) }
    ensures clean { IfOk result (λ at. IsClean arena.old arena.new (given_refs (field_types aliases.now)) at) }
    ensures err { OnErr result (Adds arena.old arena.new (given_refs (field_types aliases.now)) []) }
{
    let raw = raw_type(alloc, arena, aliases, typ)?;
    let at = cut(alloc, arena, raw)?;
    Ok(at)
}

// What a written type means, before the whole is cut.
#[cycle(forms)]
fn raw_type(
    alloc: Global,
    arena: &mut Arena<'_>,
    aliases: &Aliases,
    typ: &TypeSyntax,
) -> Result<TypeRef, AllocError>
    requires { AreThere arena.old (field_types aliases.now) }
    ensures made { IfOk result (λ at. Made arena.old arena.new (field_types aliases.now) at (raw_of (known_in arena.old aliases.now) (view_type typ.now))) }
    ensures err { OnErr result (Adds arena.old arena.new (given_refs (field_types aliases.now)) []) }
{
    let (marks, inner) = unmarked(typ);
    let at = raw_form(alloc, arena, aliases, inner)?;
    with_marks(alloc, arena, at, marks)
}

// What a written type means, by its form.
#[cycle(forms)]
fn raw_form(
    alloc: Global,
    arena: &mut Arena<'_>,
    aliases: &Aliases,
    typ: &TypeSyntax,
) -> Result<TypeRef, AllocError>
    requires { AreThere arena.old (field_types aliases.now) }
    ensures made { IfOk result (λ at. Made arena.old arena.new (field_types aliases.now) at (raw_of (known_in arena.old aliases.now) (view_type typ.now))) }
    ensures err { OnErr result (Adds arena.old arena.new (given_refs (field_types aliases.now)) []) }
{
    match &typ.kind {
        TypeKind::Nil => plain_ref(alloc, arena, Plain::Nil),
        TypeKind::Bool(truth) => plain_ref(alloc, arena, of_truth(*truth)),
        TypeKind::Str(bytes) => text_ref(alloc, arena, bytes),
        TypeKind::Named { prefix, name, args } => {
            form_ref(alloc, arena, aliases, prefix, name, args.as_slice())
        }
        TypeKind::Typeof(_) => plain_ref(alloc, arena, Plain::Unknown),
        TypeKind::Array(_) => plain_ref(alloc, arena, Plain::AnyTable),
        TypeKind::Table(props) => raw_table(alloc, arena, aliases, props.as_slice()),
        TypeKind::Func { .. } => plain_ref(alloc, arena, Plain::AnyFunction),
        TypeKind::Union(types) => {
            raw_list(alloc, arena, aliases, Choice::Either, types.as_slice())
        }
        TypeKind::Meet(types) => raw_list(alloc, arena, aliases, Choice::Both, types.as_slice()),
        TypeKind::Optional(inner) => {
            let at = raw_type(alloc, arena, aliases, inner.get())?;
            with_marks(alloc, arena, at, 1)
        }
        TypeKind::Pack(_) => plain_ref(alloc, arena, Plain::Unknown),
        TypeKind::Variadic(_) => plain_ref(alloc, arena, Plain::Unknown),
        TypeKind::GenericPack(_) => plain_ref(alloc, arena, Plain::Unknown),
    }
}

// What the types of a union or a meet mean together.
#[cycle(forms)]
fn raw_list(
    alloc: Global,
    arena: &mut Arena<'_>,
    aliases: &Aliases,
    choice: Choice,
    types: &[TypeSyntax],
) -> Result<TypeRef, AllocError>
    requires { AreThere arena.old (field_types aliases.now) }
    ensures made { IfOk result (λ at. Made arena.old arena.new (field_types aliases.now) at (all_joined choice (known_in arena.old aliases.now) (view_types types.now))) }
    ensures err { OnErr result (Adds arena.old arena.new (given_refs (field_types aliases.now)) []) }
{
    let [first, rest @ ..] = types else {
        return plain_ref(alloc, arena, none_of(choice));
    };
    let mut at = raw_type(alloc, arena, aliases, first)?;
    for typ in rest {
        let next = raw_type(alloc, arena, aliases, typ)?;
        let both = join(alloc, arena, choice, at, next)?;
        at = both;
    }
    Ok(at)
}

// What a table type means.
#[cycle(forms)]
fn raw_table(
    alloc: Global,
    arena: &mut Arena<'_>,
    aliases: &Aliases,
    props: &[Prop],
) -> Result<TypeRef, AllocError>
    requires { AreThere arena.old (field_types aliases.now) }
    ensures made { IfOk result (λ at. Made arena.old arena.new (field_types aliases.now) at (table_of (raw_fields_of (known_in arena.old aliases.now) (view_props props.now)))) }
    ensures err { OnErr result (Adds arena.old arena.new (given_refs (field_types aliases.now)) []) }
{
    let mut fields = BTreeMap::new(alloc);
    for prop in props {
        match readable_name(prop) {
            None => continue,
            Some(name) => {
                let at = raw_type(alloc, arena, aliases, &prop.typ)?;
                let key = label(alloc, name)?;
                fields.insert(key, at)?;
            }
        }
    }
    let row = row_ref(alloc, arena, fields)?;
    Ok(row)
}
