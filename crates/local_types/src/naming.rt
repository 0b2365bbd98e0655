//! Rows of fields by their names in the order of the text.
ghost use Rattle.std.specs.Prelude.{◌≡◌, [], false, All, Contains, IsTrue, IfOk, map, reverse};
ghost use Rattle.type_arena.specs.Meaning.{fields_by};
ghost use Rattle.type_arena.specs.Store.{has as has_node, field_types};
ghost use Rattle.type_arena.specs.Term.{Term};
ghost use Rattle.type_arena.specs.declared.node.TypeRef.{TypeRef};
ghost use Rattle.type_normal.specs.Kinds.{row_type as row_term};
ghost use Rattle.local_types.specs.Entries.{arenas_of, type_of};
ghost use Rattle.local_types.specs.Growing.{Grows, IsMadeOf};
ghost use Rattle.local_types.specs.Named.{fields_named, types_listed};

use crate::types::LocalTypes;
use std::alloc::{AllocError, Global};
use std::collections::BTreeMap;
use type_arena::{Label, List, TypeRef};

impl<'a> LocalTypes<'a> {
    /// The tables whose fields have these names and types, of one name the last. The names stand in order, the types the last
    /// first; what one of the two lists has more than the other counts for nothing.
    pub fn row_of(
        &mut self,
        alloc: Global,
        names: Vec<Label>,
        types: &[TypeRef],
    ) -> Result<TypeRef, AllocError>
        requires { All (λ at. IsTrue (has_node (arenas_of self.old) at)) types.now }
        ensures term { IfOk result (λ at. type_of self.new at ≡ row_term false (fields_named names.items (types_listed self.old types.now))) }
        ensures there { IfOk result (λ at. IsTrue (has_node (arenas_of self.new) at)) }
        ensures made { IfOk result (IsMadeOf self.old types.now) }
        ensures grows { Grows self.old self.new types.now }
    {
        let fields = fields_of(alloc, names, types)?;
        let listed = listed(alloc, fields)?;
        let at = self.row(alloc, listed)?;
        Ok(at)
    }
}

// The fields with these names and types, of one name the last.
fn fields_of(
    alloc: Global,
    mut names: Vec<Label>,
    types: &[TypeRef],
) -> Result<BTreeMap<Label, TypeRef>, AllocError>
    ensures fields { IfOk result (λ fields. (means : TypeRef → Term) → fields_by means fields.entries ≡ fields_named names.items (reverse (map means types.now))) }
    ensures among { IfOk result (λ fields. All (Contains types.now) (field_types fields.entries)) }
{
    names.truncate(types.len());
    let mut fields = BTreeMap::new(alloc);
    while let Some(name) = names.pop() {
        if fields.contains_key(&name) {
            continue;
        }
        let at = types[types.len() - 1 - names.len()];
        fields.insert(name, at)?;
    }
    Ok(fields)
}

// The fields, in the order of their names.
fn listed(
    alloc: Global,
    fields: BTreeMap<Label, TypeRef>,
) -> Result<List<(Label, TypeRef)>, AllocError>
    ensures { IfOk result (λ all. all ≡ fields.entries) }
{
    let mut all = Vec::new(alloc);
    for (name, at) in fields {
        all.push((name, at))?;
    }
    Ok(List::of(all))
}
