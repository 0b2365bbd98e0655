//! The properties of table types.
ghost use Rattle.std.specs.Prelude.{◌≡◌, [], false, IfOk, OnErr, option_map};
ghost use Rattle.luau_tree.specs.View.{view_prop};
ghost use Rattle.type_arena.specs.Arena.{store_of};
ghost use Rattle.type_arena.specs.Meaning.{term_of, fields_by};
ghost use Rattle.type_arena.specs.Store.{field_types};
ghost use Rattle.type_normal.specs.Adds.{Adds};
ghost use Rattle.type_normal.specs.Growing.{given_refs};
ghost use Rattle.type_normal.specs.Kinds.{row_type as row_term};
ghost use Rattle.type_lower.specs.Made.{Made, AreThere};
ghost use Rattle.type_lower.specs.Rowed.{readable};

use luau_tree::{Access, Bytes, Prop, PropKey};
use std::alloc::{AllocError, Global};
use std::collections::BTreeMap;
use type_arena::{Arena, Label, List, TypeRef};
use type_fields::row_type;

/// The name of a property that may be read.
pub(crate) fn readable_name(prop: &Prop) -> Option<&Bytes>
    ensures { option_map (λ name. name.now) result ≡ readable (view_prop prop.now) }
{
    match &prop.key {
        PropKey::Name(name) => match prop.access {
            Access::Both => Some(name),
            Access::Read => Some(name),
            Access::Write => None,
        },
        PropKey::Indexer(_) => None,
    }
}

/// A name as that of a field.
pub(crate) fn label(alloc: Global, name: &Bytes) -> Result<Label, AllocError>
    ensures { IfOk result (λ label. label ≡ name.now) }
{
    Ok(Label::of(Vec::from_slice(alloc, name.as_slice())?))
}

/// A reference to the tables whose fields are in some types.
pub(crate) fn row_ref(
    alloc: Global,
    arena: &mut Arena<'_>,
    fields: BTreeMap<Label, TypeRef>,
) -> Result<TypeRef, AllocError>
    requires { AreThere arena.old (field_types fields.entries) }
    ensures made { IfOk result (λ at. Made arena.old arena.new (field_types fields.entries) at (row_term false (fields_by (term_of (store_of arena.old)) fields.entries))) }
    ensures err { OnErr result (Adds arena.old arena.new (given_refs (field_types fields.entries)) []) }
{
    let all = listed(alloc, fields)?;
    let at = row_type(alloc, arena, false, all)?;
    Ok(at)
}

// The fields, in the order of their names.
fn listed(
    alloc: Global,
    fields: BTreeMap<Label, TypeRef>,
) -> Result<List<(Label, TypeRef)>, AllocError>
    ensures { IfOk result (λ all. all ≡ fields.entries) }
{
    let mut all = Vec::new(alloc);
    for (name, at) in fields {
        all.push((name, at))?;
    }
    Ok(List::of(all))
}
