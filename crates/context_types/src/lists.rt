//! Several sets at once.
ghost use Rattle.std.specs.Prelude.{◌≡◌, IfOk, All, map};
ghost use Rattle.report_rules.specs.Context.{only_for as only_for_one};
ghost use Rattle.report_rules.specs.Rules.{Rules, loose};
ghost use Rattle.report_work.specs.Moves.{past_none as past_none_terms, parts_of};
ghost use Rattle.type_fields.specs.Plain.{plain_term};
ghost use Rattle.context_types.specs.Lists.{each_term, refs_each, no_context, first_ref};
ghost use Rattle.context_types.specs.Types.{set_in, context_in};
ghost use Rattle.context_types.specs.Standing.{Grows, Stands, StandsContext};

use crate::types::ContextTypes;
use error_context::Context;
use luau_tree::LocalId;
use std::alloc::{AllocError, Global};
use type_arena::{Label, TypeRef};
use type_fields::Plain;

/// What a set becomes.
#[derive(Debug, Drop)]
pub enum Each {
    /// The tables with a field in it.
    FieldIs(Label),
    /// Its values and those of another set.
    UnionWith(TypeRef),
    /// Those of its values that are in another set too.
    MeetWith(TypeRef),
    /// Another set in its place.
    Instead(TypeRef),
}

impl<'a> ContextTypes<'a> {
    /// What becomes of each of some sets.
    pub fn each(
        &mut self,
        alloc: Global,
        how: &Each,
        sets: &[TypeRef],
    ) -> Result<Vec<TypeRef>, AllocError>
        requires how { All (Stands self.old) (refs_each how.now) }
        requires sets { All (Stands self.old) sets.now }
        ensures sets { IfOk result (λ made. map (set_in self.new) made.items ≡ map (each_term (set_in self.old) how.now) (map (set_in self.old) sets.now)) }
        ensures stand { IfOk result (λ made. All (Stands self.new) made.items) }
        ensures grows { Grows self.old self.new }
    {
        let mut made = Vec::new(alloc);
        for set in sets {
            let one = self.one(alloc, how, *set)?;
            made.push(one)?;
        }
        Ok(made)
    }

    // What becomes of a set.
    fn one(&mut self, alloc: Global, how: &Each, set: TypeRef) -> Result<TypeRef, AllocError>
        requires how { All (Stands self.old) (refs_each how.now) }
        requires set { Stands self.old set }
        ensures set { IfOk result (λ at. set_in self.new at ≡ each_term (set_in self.old) how.now (set_in self.old set)) }
        ensures stands { IfOk result (Stands self.new) }
        ensures grows { Grows self.old self.new }
    {
        match how {
            Each::FieldIs(name) => {
                let name = name.clone()?;
                self.field_is(alloc, name, set)
            }
            Each::UnionWith(other) => self.union(alloc, *other, set),
            Each::MeetWith(other) => self.meet(alloc, set, *other),
            Each::Instead(other) => Ok(*other),
        }
    }

    /// The sets by which the left side of `and` or `or` is asked where these are asked for: none, and the part of each that has
    /// values of some kinds.
    pub fn parts(
        &mut self,
        alloc: Global,
        kind: Plain,
        sets: &[TypeRef],
    ) -> Result<Vec<TypeRef>, AllocError>
        requires { All (Stands self.old) sets.now }
        ensures sets { IfOk result (λ made. map (set_in self.new) made.items ≡ parts_of (plain_term kind) (map (set_in self.old) sets.now)) }
        ensures stand { IfOk result (λ made. All (Stands self.new) made.items) }
        ensures grows { Grows self.old self.new }
    {
        let rest = self.past_none(sets);
        let never = self.plain(alloc, Plain::Never)?;
        let values = self.plain(alloc, kind)?;
        let how = Each::MeetWith(values);
        let met = self.each(alloc, &how, rest)?;
        let mut parts = Vec::new(alloc);
        parts.push(never)?;
        parts.extend_from_slice(met.as_slice())?;
        Ok(parts)
    }

    // Some sets without the first, if that has no values.
    fn past_none<'s>(&self, sets: &'s [TypeRef]) -> &'s [TypeRef]
        requires { All (Stands self.now) sets.now }
        ensures sets { map (set_in self.now) result.now ≡ past_none_terms (map (set_in self.now) sets.now) }
        ensures stand { All (Stands self.now) result.now }
    {
        match sets {
            [] => sets,
            [first, rest @ ..] => { if self.is_empty(*first) { rest } else { sets } }
        }
    }

    /// For each of some sets the context under which a local's value is in it.
    pub fn only_for_each(
        &mut self,
        alloc: Global,
        local: LocalId,
        is_loose: bool,
        sets: &[TypeRef],
    ) -> Result<Vec<Context>, AllocError>
        requires { All (Stands self.old) sets.now }
        ensures contexts { IfOk result (λ made. (rules : Rules) → loose rules local.0 ≡ is_loose → map (context_in self.new) made.items ≡ map (only_for_one rules local.0) (map (set_in self.old) sets.now)) }
        ensures stand { IfOk result (λ made. All (StandsContext self.new) made.items) }
        ensures grows { Grows self.old self.new }
    {
        let mut made = Vec::new(alloc);
        for set in sets {
            let one = self.only_for(alloc, local, is_loose, *set)?;
            made.push(one)?;
        }
        Ok(made)
    }
}

/// The same context for each of some sets.
pub fn spread(
    alloc: Global,
    context: &Context,
    sets: &[TypeRef],
) -> Result<Vec<Context>, AllocError>
    ensures { IfOk result (λ made. made.items ≡ map (λ set. context.now) sets.now) }
{
    let mut made = Vec::new(alloc);
    for _set in sets {
        let one = copied(alloc, context)?;
        made.push(one)?;
    }
    Ok(made)
}

/// For each of some sets the context in which nothing makes the code fail.
pub fn unfailing(alloc: Global, sets: &[TypeRef]) -> Result<Vec<Context>, AllocError>
    ensures { IfOk result (λ made. made.items ≡ map (λ set. no_context) sets.now) }
{
    let none = nothing(alloc);
    spread(alloc, &none, sets)
}

/// A copy of a context.
pub fn copied(alloc: Global, context: &Context) -> Result<Context, AllocError>
    ensures { IfOk result (λ made. made ≡ context.now) }
{
    let made = context.copied(alloc)?;
    Ok(made)
}

/// The context in which nothing makes the code fail.
pub fn nothing(alloc: Global) -> Context
    ensures { result ≡ no_context }
{
    Context::none(alloc)
}

/// A copy of the first of some contexts, or of that in which nothing makes the code fail, without one.
pub fn first_copied(alloc: Global, contexts: &[Context]) -> Result<Context, AllocError>
    ensures { IfOk result (λ made. made ≡ first_ref contexts.now) }
{
    match contexts {
        [] => Ok(nothing(alloc)),
        [first, ..] => copied(alloc, first),
    }
}
