//! The way through written types: they hold expressions, and names of packs.
ghost use Rattle.std.specs.Prelude.{◌≡◌, OnOk};
ghost use Rattle.luau_tree.specs.View.{view_gens, view_maybe_type, view_props, view_type, view_types, view_varargs};
ghost use Rattle.luau_scope.specs.Steps.{run, after_gens, after_maybe_type, after_props, after_type, after_types, after_varargs};

use crate::refusal::Refusal;
use crate::task::Task;
use crate::walker::Walker;
use crate::within::Within;
use luau_tree::{Gen, Prop, PropKey, TypeKind, TypeSyntax};
use sqlite_items::Items;
use std::alloc::AllocError;

impl<'p> Walker<'p> {
    pub(crate) fn written<'t>(
        &mut self,
        tasks: &mut Items<Task<'t>>,
        within: Within,
        typ: &'t TypeSyntax,
    ) -> Result<(), AllocError>
        ensures { OnOk result (run tasks.new self.new ≡ run tasks.old (after_type within (view_type typ.now) self.old)) }
    {
        match &typ.kind {
            TypeKind::Nil | TypeKind::Bool(_) | TypeKind::Str(_) => Ok(()),
            TypeKind::Named { args, .. } => tasks.push(Task::Types(within, args.as_slice())),
            TypeKind::Typeof(e) => tasks.push(Task::Expr(within, e.get())),
            TypeKind::Array(item) | TypeKind::Optional(item) | TypeKind::Variadic(item) => {
                tasks.push(Task::Type(within, item.get()))
            }
            TypeKind::Table(props) => tasks.push(Task::Props(within, props.as_slice())),
            TypeKind::Func {
                generics,
                params,
                result: given,
            } => {
                tasks.push(Task::Type(within, given.get()))?;
                tasks.push(Task::Types(within, params.as_slice()))?;
                tasks.push(Task::Gens(within, generics.as_slice()))
            }
            TypeKind::Union(types) | TypeKind::Meet(types) | TypeKind::Pack(types) => {
                tasks.push(Task::Types(within, types.as_slice()))
            }
            TypeKind::GenericPack(_) => {
                self.refuse_if(true, Refusal::GenericPack, typ.span);
                Ok(())
            }
        }
    }

    pub(crate) fn types<'t>(
        &mut self,
        tasks: &mut Items<Task<'t>>,
        within: Within,
        types: &'t [TypeSyntax],
    ) -> Result<(), AllocError>
        ensures { OnOk result (run tasks.new self.new ≡ run tasks.old (after_types within (view_types types.now) self.old)) }
    {
        let [typ, rest @ ..] = types else {
            return Ok(());
        };
        tasks.push(Task::Types(within, rest))?;
        tasks.push(Task::Type(within, typ))
    }

    pub(crate) fn maybe_type<'t>(
        &mut self,
        tasks: &mut Items<Task<'t>>,
        within: Within,
        typ: &'t Option<TypeSyntax>,
    ) -> Result<(), AllocError>
        ensures { OnOk result (run tasks.new self.new ≡ run tasks.old (after_maybe_type within (view_maybe_type typ.now) self.old)) }
    {
        match typ {
            None => Ok(()),
            Some(typ) => tasks.push(Task::Type(within, typ)),
        }
    }

    pub(crate) fn varargs<'t>(
        &mut self,
        tasks: &mut Items<Task<'t>>,
        within: Within,
        vararg: &'t Option<Option<TypeSyntax>>,
    ) -> Result<(), AllocError>
        ensures { OnOk result (run tasks.new self.new ≡ run tasks.old (after_varargs within (view_varargs vararg.now) self.old)) }
    {
        match vararg {
            None => Ok(()),
            Some(typ) => tasks.push(Task::MaybeType(within, typ)),
        }
    }

    pub(crate) fn gens<'t>(
        &mut self,
        tasks: &mut Items<Task<'t>>,
        within: Within,
        gens: &'t [Gen],
    ) -> Result<(), AllocError>
        ensures { OnOk result (run tasks.new self.new ≡ run tasks.old (after_gens within (view_gens gens.now) self.old)) }
    {
        let [first, rest @ ..] = gens else {
            return Ok(());
        };
        self.refuse_if(first.pack, Refusal::GenericPack, first.span);
        tasks.push(Task::Gens(within, rest))?;
        tasks.push(Task::MaybeType(within, &first.default))
    }

    pub(crate) fn props<'t>(
        &mut self,
        tasks: &mut Items<Task<'t>>,
        within: Within,
        props: &'t [Prop],
    ) -> Result<(), AllocError>
        ensures { OnOk result (run tasks.new self.new ≡ run tasks.old (after_props within (view_props props.now) self.old)) }
    {
        let [first, rest @ ..] = props else {
            return Ok(());
        };
        tasks.push(Task::Props(within, rest))?;
        tasks.push(Task::Type(within, &first.typ))?;
        match &first.key {
            PropKey::Name(_) => Ok(()),
            PropKey::Indexer(key) => tasks.push(Task::Type(within, key)),
        }
    }
}
