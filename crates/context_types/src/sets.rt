//! Sets of values.
ghost use Rattle.std.specs.Prelude.{◌≡◌, ◌∷◌, [], IfOk, option_map, option_copied};
ghost use Rattle.type_arena.specs.Term.{function_of};
ghost use Rattle.subtype_check.specs.Below.{below as below_term};
ghost use Rattle.type_fields.specs.Plain.{plain_term, failing_term};
ghost use Rattle.type_normal.specs.Kinds.{field_is as field_is_term, has_nil as has_nil_term, exactly_one_function as one_function};
ghost use Rattle.type_normal.specs.Operations.{union as union_term, meet as meet_term, fail as fail_term};
ghost use Rattle.type_normal.specs.Rows.{is_empty as is_empty_term};
ghost use Rattle.context_types.specs.Types.{set_in};
ghost use Rattle.context_types.specs.Standing.{Grows, Stands};

use crate::types::ContextTypes;
use std::alloc::{AllocError, Global};
use type_arena::{FnName, Label, TypeRef};
use type_fields::{Operation, Plain};

impl<'a> ContextTypes<'a> {
    /// The values of some kinds.
    pub fn plain(&mut self, alloc: Global, kind: Plain) -> Result<TypeRef, AllocError>
        ensures set { IfOk result (λ at. set_in self.new at ≡ plain_term kind) }
        ensures stands { IfOk result (Stands self.new) }
        ensures grows { Grows self.old self.new }
    {
        let at = type_fields::plain_type(alloc, &mut self.arena, kind)?;
        Ok(at)
    }

    /// The values with which an operation fails.
    pub fn failing(&mut self, alloc: Global, operation: Operation) -> Result<TypeRef, AllocError>
        ensures set { IfOk result (λ at. set_in self.new at ≡ failing_term operation) }
        ensures stands { IfOk result (Stands self.new) }
        ensures grows { Grows self.old self.new }
    {
        let at = type_fields::failing_type(alloc, &mut self.arena, operation)?;
        Ok(at)
    }

    /// What fails for certain where a value of a type is wanted.
    pub fn fail(&mut self, alloc: Global, wanted: TypeRef) -> Result<TypeRef, AllocError>
        requires { Stands self.old wanted }
        ensures set { IfOk result (λ at. set_in self.new at ≡ fail_term (set_in self.old wanted)) }
        ensures stands { IfOk result (Stands self.new) }
        ensures grows { Grows self.old self.new }
    {
        let at = type_fields::fail(alloc, &mut self.arena, wanted)?;
        Ok(at)
    }

    /// The values of one of two sets.
    pub fn union(&mut self, alloc: Global, a: TypeRef, b: TypeRef) -> Result<TypeRef, AllocError>
        requires first { Stands self.old a }
        requires second { Stands self.old b }
        ensures set { IfOk result (λ at. set_in self.new at ≡ union_term (set_in self.old a) (set_in self.old b)) }
        ensures stands { IfOk result (Stands self.new) }
        ensures grows { Grows self.old self.new }
    {
        let at = type_ops::union(alloc, &mut self.arena, a, b)?;
        Ok(at)
    }

    /// The values of both sets.
    pub fn meet(&mut self, alloc: Global, a: TypeRef, b: TypeRef) -> Result<TypeRef, AllocError>
        requires first { Stands self.old a }
        requires second { Stands self.old b }
        ensures set { IfOk result (λ at. set_in self.new at ≡ meet_term (set_in self.old a) (set_in self.old b)) }
        ensures stands { IfOk result (Stands self.new) }
        ensures grows { Grows self.old self.new }
    {
        let at = type_ops::meet(alloc, &mut self.arena, a, b)?;
        Ok(at)
    }

    /// The tables with one field in a set.
    pub fn field_is(
        &mut self,
        alloc: Global,
        name: Label,
        a: TypeRef,
    ) -> Result<TypeRef, AllocError>
        requires { Stands self.old a }
        ensures set { IfOk result (λ at. set_in self.new at ≡ field_is_term name (set_in self.old a)) }
        ensures stands { IfOk result (Stands self.new) }
        ensures grows { Grows self.old self.new }
    {
        let at = type_fields::field_is(alloc, &mut self.arena, name, a)?;
        Ok(at)
    }

    /// Whether a set has no values. Takes no memory.
    pub fn is_empty(&self, a: TypeRef) -> bool
        requires { Stands self.now a }
        ensures { result ≡ is_empty_term (set_in self.now a) }
    {
        type_normal::is_empty(&self.arena, a)
    }

    /// Whether nil is in a set. Takes no memory.
    pub fn has_nil(&self, a: TypeRef) -> bool
        requires { Stands self.now a }
        ensures { result ≡ has_nil_term (set_in self.now a) }
    {
        type_fields::has_nil(&self.arena, a)
    }

    /// The function that is the only value of a set. Takes no memory.
    pub fn only_function(&self, a: TypeRef) -> Option<&FnName>
        requires { Stands self.now a }
        ensures { option_map function_of (option_copied result) ≡ one_function (set_in self.now a) }
    {
        type_fields::exactly_one_function(&self.arena, a)
    }

    /// Whether all values of one type are in another. The types stay as they are.
    pub fn below(&mut self, a: TypeRef, b: TypeRef) -> Result<bool, AllocError>
        requires first { Stands self.old a }
        requires second { Stands self.old b }
        ensures below { IfOk result (λ answer. answer ≡ below_term (set_in self.old a) (set_in self.old b)) }
        ensures grows { Grows self.old self.new }
    {
        let answer = self.found.below(&self.arena, a, b)?;
        Ok(answer)
    }
}
