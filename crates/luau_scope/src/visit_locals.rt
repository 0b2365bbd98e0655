//! The way through declarations and targets.
ghost use Rattle.std.specs.Prelude.{◌≡◌, OnOk, IfOk};
ghost use Rattle.std.specs.Option.{option_to_list};
ghost use Rattle.luau_tree.specs.View.{view_bind, view_binds, view_expr, view_exprs};
ghost use Rattle.luau_scope.specs.Finds as finds;
ghost use Rattle.luau_scope.specs.Steps.{run, around_in, after_aim, after_aims, after_declared, after_enter, after_entry, after_locals, after_named, after_own, after_params, after_targets};

use crate::findings::Declared;
use crate::names::{copy, name_of};
use crate::numbers::{Numbers, with_number};
use crate::refusal::Refusal;
use crate::scope::Held;
use crate::task::{Locals, Task};
use crate::walker::Walker;
use crate::within::Within;
use luau_tree::{Bind, Bytes, Expr, ExprId, ExprKind};
use sqlite_items::Items;
use std::alloc::AllocError;

/// The most locals of one function that are in scope at once.
const MAX_LOCALS: usize = 200;

/// The first of some values, by its number, and the others.
fn first_given(given: &[Expr]) -> (Option<ExprId>, &[Expr])
    ensures first { result.0 ≡ finds.first_value (view_exprs given.now) }
    ensures others { view_exprs result.1.now ≡ finds.other_values (view_exprs given.now) }
{
    match given {
        [] => (None, given),
        [e, others @ ..] => (Some(e.id), others),
    }
}

impl<'p> Walker<'p> {
    /// A local is declared, before what is written of its type.
    pub(crate) fn declare(
        &mut self,
        within: Within,
        given: Option<ExprId>,
        bind: &Bind,
    ) -> Result<(), AllocError>
        ensures { OnOk result (self.new ≡ after_declared within given (view_bind bind.now) self.old) }
    {
        let name = copy(self.alloc, &bind.name)?;
        self.found.declare(Declared {
            name,
            declared: bind.span,
            function: within.function,
            given,
        })
    }

    /// A declared local comes into scope, where so many of the function are there.
    fn entry(
        &mut self,
        within: Within,
        own: usize,
        bind: &Bind,
        number: u32,
    ) -> Result<(), AllocError>
        ensures { OnOk result (self.new ≡ after_entry within own (view_bind bind.now) number self.old) }
    {
        self.refuse_if(own >= MAX_LOCALS, Refusal::TooManyLocals, bind.span);
        let held = Held {
            local: number,
            function: within.function,
        };
        self.scope.enter(self.alloc, &bind.name, held)
    }

    /// A declared local comes into scope.
    pub(crate) fn enter_one(
        &mut self,
        within: Within,
        bind: &Bind,
        number: u32,
    ) -> Result<(), AllocError>
        ensures { OnOk result (self.new ≡ after_entry within (finds.own_locals (around_in self.old within)) (view_bind bind.now) number self.old) }
    {
        let own = self.scope.len().saturating_sub(within.outside);
        self.entry(within, own, bind, number)
    }

    /// Declared locals come into scope.
    pub(crate) fn enter(
        &mut self,
        within: Within,
        binds: &[Bind],
        numbers: &[u32],
    ) -> Result<(), AllocError>
        ensures { OnOk result (self.new ≡ after_enter within (view_binds binds.now) numbers.now self.old) }
    {
        let outside = within.outside.min(self.scope.len());
        let mut rest = binds;
        let mut left = numbers;
        while let [bind, binds @ ..] = rest {
            let [number, numbers @ ..] = left else {
                return Ok(());
            };
            let own = self.scope.len() - outside;
            self.entry(within, own, bind, *number)?;
            rest = binds;
            left = numbers;
        }
        Ok(())
    }

    /// A declaration that is in scope from its own name on, but for its type.
    pub(crate) fn own_bind(&mut self, within: Within, bind: &Bind) -> Result<(), AllocError>
        ensures { OnOk result (self.new ≡ after_own within (view_bind bind.now) self.old) }
    {
        let number = self.number()?;
        let own = self.scope.len().saturating_sub(within.outside);
        self.declare(within, None, bind)?;
        self.entry(within, own, bind, number)
    }

    /// Parameters.
    pub(crate) fn params<'t>(
        &mut self,
        tasks: &mut Items<Task<'t>>,
        within: Within,
        params: &'t [Bind],
    ) -> Result<(), AllocError>
        ensures { OnOk result (run tasks.new self.new ≡ run tasks.old (after_params within (view_binds params.now) self.old)) }
    {
        let [first, rest @ ..] = params else {
            return Ok(());
        };
        self.own_bind(within, first)?;
        tasks.push(Task::Params(within, rest))?;
        tasks.push(Task::MaybeType(within, &first.typ))
    }

    /// Declarations, then their values, and then they come into scope.
    pub(crate) fn locals<'t>(
        &mut self,
        tasks: &mut Items<Task<'t>>,
        within: Within,
        mut locals: Locals<'t>,
    ) -> Result<(), AllocError>
        ensures { OnOk result (run tasks.new self.new
            ≡ run tasks.old (after_locals within (view_binds locals.entry.all.now) (view_binds locals.entry.rest.now) (view_exprs locals.entry.given.now) (view_exprs locals.entry.values.now) locals.entry.numbers self.old)) }
    {
        let [bind, rest @ ..] = locals.rest else {
            tasks.push(Task::Enter(within, locals.all, locals.numbers))?;
            return tasks.push(Task::Exprs(within, locals.values));
        };
        let number = self.number()?;
        let (given, others) = first_given(locals.given);
        self.declare(within, given, bind)?;
        locals.numbers.push(number)?;
        locals.rest = rest;
        locals.given = others;
        tasks.push(Task::Locals(within, locals))?;
        tasks.push(Task::MaybeType(within, &bind.typ))
    }

    /// The local that a target is.
    fn target_local(&self, within: Within, target: &Expr) -> Option<u32>
        ensures { option_to_list result ≡ finds.target_local (around_in self.now within) (view_expr target.now) }
    {
        match name_of(target) {
            None => None,
            Some(name) => match self.scope.meant(name) {
                None => None,
                Some(held) => Some(held.local),
            },
        }
    }

    /// Whether a name is a builtin's or a library's.
    fn names_builtin(&self, within: Within, e: &Expr) -> Result<bool, AllocError>
        ensures { IfOk result (λ fixed. fixed ≡ finds.names_builtin (around_in self.now within) (finds.kind_of (view_expr e.now))) }
    {
        match name_of(e) {
            None => Ok(false),
            Some(name) => self.is_fixed(within, name),
        }
    }

    /// Whether an expression is a builtin or a library, or a field of one.
    fn touches_builtin(&self, within: Within, e: &Expr) -> Result<bool, AllocError>
        ensures { IfOk result (λ touches. touches ≡ finds.touches_builtin (around_in self.now within) (finds.kind_of (view_expr e.now))) }
    {
        match &e.kind {
            ExprKind::Index { base, .. } => self.names_builtin(within, base.get()),
            _ => self.names_builtin(within, e),
        }
    }

    /// A target of an assignment, apart from what is found in it as an expression.
    pub(crate) fn aim(
        &mut self,
        within: Within,
        earlier: &Numbers,
        target: &Expr,
    ) -> Result<(), AllocError>
        ensures { OnOk result (self.new ≡ after_aim within earlier.now (view_expr target.now) self.old) }
    {
        let touches = self.touches_builtin(within, target)?;
        self.refuse_if(touches, Refusal::AssignedBuiltin, target.span);
        if let Some(local) = self.target_local(within, target) {
            self.found.assign(local)?;
            self.refuse_if(earlier.has(local), Refusal::RepeatedTarget, target.span);
        }
        Ok(())
    }

    /// Targets of an assignment.
    pub(crate) fn targets<'t>(
        &mut self,
        tasks: &mut Items<Task<'t>>,
        within: Within,
        targets: &'t [Expr],
        earlier: Numbers,
    ) -> Result<(), AllocError>
        ensures { OnOk result (run tasks.new self.new ≡ run tasks.old (after_targets within earlier (view_exprs targets.now) self.old)) }
    {
        let [first, rest @ ..] = targets else {
            return Ok(());
        };
        tasks.push(Task::Aim(within, first, rest, earlier))?;
        tasks.push(Task::Expr(within, first))
    }

    /// A target that was gone through as an expression, and those behind it.
    pub(crate) fn aims<'t>(
        &mut self,
        tasks: &mut Items<Task<'t>>,
        within: Within,
        target: &'t Expr,
        others: &'t [Expr],
        earlier: Numbers,
    ) -> Result<(), AllocError>
        ensures { OnOk result (run tasks.new self.new ≡ run tasks.old (after_aims within earlier (view_expr target.now) (view_exprs others.now) self.old)) }
    {
        self.aim(within, &earlier, target)?;
        let local = self.target_local(within, target);
        let earlier = with_number(earlier, local)?;
        tasks.push(Task::Targets(within, others, earlier))
    }

    /// The name of a function statement is a target, but with a method it is the method that is one.
    pub(crate) fn named(
        &mut self,
        within: Within,
        path: &Expr,
        method: &Option<Bytes>,
    ) -> Result<(), AllocError>
        ensures { OnOk result (self.new ≡ after_named within (view_expr path.now) method.now self.old) }
    {
        match method {
            None => self.aim(within, &Numbers::new(self.alloc), path),
            Some(_) => {
                let fixed = self.names_builtin(within, path)?;
                self.refuse_if(fixed, Refusal::AssignedBuiltin, path.span);
                Ok(())
            }
        }
    }
}
