//! Types that are made of kinds, of names and of fields. Each call leaves the maps as they are; after want of memory too.
ghost use Rattle.std.specs.Prelude.{◌≡◌, ◌∷◌, [], false, All, IsTrue, IfOk};
ghost use Rattle.type_arena.specs.Meaning.{fields_by};
ghost use Rattle.type_arena.specs.Store.{has as has_node, field_types};
ghost use Rattle.type_arena.specs.Term.{builtin as builtin_name, literal as literal_name};
ghost use Rattle.type_arena.specs.Arena.{home_of};
ghost use Rattle.type_normal.specs.Field.{field_type as field_term, frozen_rows as frozen_term, with_row_field as with_field_term};
ghost use Rattle.type_normal.specs.Kinds.{text_type as text_term, named_type as named_term, row_type as row_term, field_is as field_is_term};
ghost use Rattle.type_normal.specs.Operations.{fail as fail_term};
ghost use Rattle.type_fields.specs.Plain.{plain_term, failing_term};
ghost use Rattle.local_types.specs.Entries.{arena_of, arenas_of, type_of};
ghost use Rattle.local_types.specs.Growing.{Grows, IsMadeOf};

use crate::types::LocalTypes;
use std::alloc::{AllocError, Global};
use type_arena::{FnName, Label, List, TypeRef};
use type_fields::{Operation, Plain};

impl<'a> LocalTypes<'a> {
    /// The values of some kinds.
    pub fn plain(&mut self, alloc: Global, kind: Plain) -> Result<TypeRef, AllocError>
        ensures term { IfOk result (λ at. type_of self.new at ≡ plain_term kind) }
        ensures there { IfOk result (λ at. IsTrue (has_node (arenas_of self.new) at)) }
        ensures made { IfOk result (IsMadeOf self.old []) }
        ensures grows { Grows self.old self.new [] }
    {
        let at = type_fields::plain_type(alloc, &mut self.arena, kind)?;
        Ok(at)
    }

    /// One string.
    pub fn text(&mut self, alloc: Global, bytes: Label) -> Result<TypeRef, AllocError>
        ensures term { IfOk result (λ at. type_of self.new at ≡ text_term bytes) }
        ensures there { IfOk result (λ at. IsTrue (has_node (arenas_of self.new) at)) }
        ensures made { IfOk result (IsMadeOf self.old []) }
        ensures grows { Grows self.old self.new [] }
    {
        let at = type_fields::text_type(alloc, &mut self.arena, bytes)?;
        Ok(at)
    }

    /// What a field of a table of a type reads as.
    pub fn field(&mut self, alloc: Global, a: TypeRef, name: &Label) -> Result<TypeRef, AllocError>
        requires { IsTrue (has_node (arenas_of self.old) a) }
        ensures term { IfOk result (λ at. type_of self.new at ≡ field_term name.now (type_of self.old a)) }
        ensures there { IfOk result (λ at. IsTrue (has_node (arenas_of self.new) at)) }
        ensures made { IfOk result (IsMadeOf self.old (a ∷ [])) }
        ensures grows { Grows self.old self.new (a ∷ []) }
    {
        let at = type_fields::field_type(alloc, &mut self.arena, name, a)?;
        Ok(at)
    }

    /// The frozen ones among the tables of a type.
    pub fn frozen_rows(&mut self, alloc: Global, a: TypeRef) -> Result<TypeRef, AllocError>
        requires { IsTrue (has_node (arenas_of self.old) a) }
        ensures term { IfOk result (λ at. type_of self.new at ≡ frozen_term (type_of self.old a)) }
        ensures there { IfOk result (λ at. IsTrue (has_node (arenas_of self.new) at)) }
        ensures made { IfOk result (IsMadeOf self.old (a ∷ [])) }
        ensures grows { Grows self.old self.new (a ∷ []) }
    {
        let at = type_fields::frozen_rows(alloc, &mut self.arena, a)?;
        Ok(at)
    }

    /// A type after a field of its tables was written with a value of another type.
    pub fn with_row_field(
        &mut self,
        alloc: Global,
        a: TypeRef,
        name: &Label,
        value: TypeRef,
    ) -> Result<TypeRef, AllocError>
        requires value { IsTrue (has_node (arenas_of self.old) value) }
        requires tables { IsTrue (has_node (arenas_of self.old) a) }
        ensures term { IfOk result (λ at. type_of self.new at ≡ with_field_term name.now (type_of self.old value) (type_of self.old a)) }
        ensures there { IfOk result (λ at. IsTrue (has_node (arenas_of self.new) at)) }
        ensures made { IfOk result (IsMadeOf self.old (value ∷ a ∷ [])) }
        ensures grows { Grows self.old self.new (value ∷ a ∷ []) }
    {
        let at = type_fields::with_row_field(alloc, &mut self.arena, name, value, a)?;
        Ok(at)
    }

    /// What fails for certain where a value of a type is wanted.
    pub fn fail(&mut self, alloc: Global, a: TypeRef) -> Result<TypeRef, AllocError>
        requires { IsTrue (has_node (arenas_of self.old) a) }
        ensures term { IfOk result (λ at. type_of self.new at ≡ fail_term (type_of self.old a)) }
        ensures there { IfOk result (λ at. IsTrue (has_node (arenas_of self.new) at)) }
        ensures made { IfOk result (IsMadeOf self.old (a ∷ [])) }
        ensures grows { Grows self.old self.new (a ∷ []) }
    {
        let at = type_fields::fail(alloc, &mut self.arena, a)?;
        Ok(at)
    }

    /// The values with which an operation fails.
    pub fn failing(&mut self, alloc: Global, operation: Operation) -> Result<TypeRef, AllocError>
        ensures term { IfOk result (λ at. type_of self.new at ≡ failing_term operation) }
        ensures there { IfOk result (λ at. IsTrue (has_node (arenas_of self.new) at)) }
        ensures made { IfOk result (IsMadeOf self.old []) }
        ensures grows { Grows self.old self.new [] }
    {
        let at = type_fields::failing_type(alloc, &mut self.arena, operation)?;
        Ok(at)
    }

    /// The tables with one field in a type.
    pub fn field_is(
        &mut self,
        alloc: Global,
        a: TypeRef,
        name: Label,
    ) -> Result<TypeRef, AllocError>
        requires { IsTrue (has_node (arenas_of self.old) a) }
        ensures term { IfOk result (λ at. type_of self.new at ≡ field_is_term name (type_of self.old a)) }
        ensures there { IfOk result (λ at. IsTrue (has_node (arenas_of self.new) at)) }
        ensures made { IfOk result (IsMadeOf self.old (a ∷ [])) }
        ensures grows { Grows self.old self.new (a ∷ []) }
    {
        let at = type_fields::field_is(alloc, &mut self.arena, name, a)?;
        Ok(at)
    }

    /// The tables whose fields are in these types. The fields are given in the order of their names; one of type unknown is left
    /// out, and one without values leaves no table.
    pub fn row(
        &mut self,
        alloc: Global,
        fields: List<(Label, TypeRef)>,
    ) -> Result<TypeRef, AllocError>
        requires { All (λ child. IsTrue (has_node (arenas_of self.old) child)) (field_types fields) }
        ensures term { IfOk result (λ at. type_of self.new at ≡ row_term false (fields_by (type_of self.old) fields)) }
        ensures there { IfOk result (λ at. IsTrue (has_node (arenas_of self.new) at)) }
        ensures made { IfOk result (IsMadeOf self.old (field_types fields)) }
        ensures grows { Grows self.old self.new (field_types fields) }
    {
        let at = type_fields::row_type(alloc, &mut self.arena, false, fields)?;
        Ok(at)
    }

    /// One builtin, by its path.
    pub fn builtin(&mut self, alloc: Global, path: Label) -> Result<TypeRef, AllocError>
        ensures term { IfOk result (λ at. type_of self.new at ≡ named_term (builtin_name path)) }
        ensures there { IfOk result (λ at. IsTrue (has_node (arenas_of self.new) at)) }
        ensures made { IfOk result (IsMadeOf self.old []) }
        ensures grows { Grows self.old self.new [] }
    {
        let at = type_fields::named_type(alloc, &mut self.arena, FnName::Builtin(path))?;
        Ok(at)
    }

    /// The functions of one literal of the arena's own home, by the number of its body.
    pub fn literal(&mut self, alloc: Global, home: u32, number: u32) -> Result<TypeRef, AllocError>
        requires { home ≡ home_of (arena_of self.old) }
        ensures term { IfOk result (λ at. type_of self.new at ≡ named_term (literal_name home number)) }
        ensures there { IfOk result (λ at. IsTrue (has_node (arenas_of self.new) at)) }
        ensures made { IfOk result (IsMadeOf self.old []) }
        ensures grows { Grows self.old self.new [] }
    {
        let at = type_fields::named_type(alloc, &mut self.arena, FnName::Literal { home, number })?;
        Ok(at)
    }
}
