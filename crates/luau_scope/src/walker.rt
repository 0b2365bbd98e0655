//! The way through a module: names.
ghost use Rattle.std.specs.Prelude.{◌≡◌, ◌∷◌, ◌++◌, [], length, OnOk, IfOk, option_map};
ghost use Rattle.std.specs.Option.{is_some};
ghost use Rattle.luau_tree.specs.Tree as plain;
ghost use Rattle.luau_tree.specs.View.{view_expr, view_exprs};
ghost use Rattle.luau_scope.specs.Finds as finds;
ghost use Rattle.luau_scope.specs.Found as found;
ghost use Rattle.luau_scope.specs.Steps.{around_in, after_part};

use crate::findings::Findings;
use crate::names::{
    banned_alone, copy, dotted, global_use, has, is_library, is_require, is_way, name_of,
};
use crate::reading::{RequireSite, Use};
use crate::refusal::Refusal;
use crate::scope::{Held, Scope};
use crate::within::Within;
use luau_tree::{Bytes, Expr, ExprId, ExprKind, FnId, LocalId, Span};
use std::alloc::{AllocError, Global};

/// What goes through a module.
#[derive(Drop)]
pub(crate) struct Walker<'p> {
    pub alloc: Global,
    /// The paths of the declared builtins.
    pub names: &'p [Bytes],
    pub scope: Scope,
    pub found: Findings,
}

/// Whether two bodies, or the module's own block, are the same.
fn is_same(f: Option<FnId>, g: Option<FnId>) -> bool
    ensures { result ≡ found.same_function f g }
{
    match (f, g) {
        (None, None) => true,
        (Some(f), Some(g)) => f.0 == g.0,
        _ => false,
    }
}

#[tactic(auto, unfolding(crate::specs::Steps::added, crate::specs::Found::join))]
impl<'p> Walker<'p> {
    /// Where a test holds, refuses.
    pub(crate) fn refuse_if(&mut self, test: bool, why: Refusal, at: Span)
        ensures { self.new ≡ after_part (finds.refused_if test why at) self.old }
    {
        if test {
            self.found.refuse(why, at);
        }
    }

    /// The number of the next local.
    pub(crate) fn number(&self) -> Result<u32, AllocError>
        ensures { IfOk result (λ n. n ≡ length self.now.found.locals) }
    {
        match u32::try_from(self.found.locals.len()) {
            Ok(number) => Ok(number),
            Err(_) => Err(AllocError),
        }
    }

    /// The use of a local.
    fn local(&mut self, within: Within, at: ExprId, held: Held) -> Result<(), AllocError>
        ensures { OnOk result (self.new ≡ after_part (finds.of_local (around_in self.old within) at held.local held.function) self.old) }
    {
        self.found.mean(at, Use::Local(LocalId(held.local)))?;
        if !is_same(held.function, within.function) {
            self.found.capture(held.local)?;
        }
        Ok(())
    }

    /// A name.
    pub(crate) fn name(
        &mut self,
        within: Within,
        at: ExprId,
        span: Span,
        name: &Bytes,
    ) -> Result<(), AllocError>
        ensures { OnOk result (self.new ≡ after_part (finds.of_name (around_in self.old within) at span name.now) self.old) }
    {
        if let Some(held) = self.scope.meant(name) {
            return self.local(within, at, held);
        }
        let meaning = global_use(self.alloc, self.names, name)?;
        self.found.mean(at, meaning)?;
        if let Some(why) = banned_alone(name) {
            self.found.refuse(why, span);
        }
        Ok(())
    }

    /// Whether a name is a global that is a builtin or a library.
    pub(crate) fn is_fixed(&self, within: Within, name: &Bytes) -> Result<bool, AllocError>
        ensures { IfOk result (λ fixed. fixed ≡ finds.is_fixed (around_in self.now within) name.now) }
    {
        if self.scope.meant(name).is_some() {
            return Ok(false);
        }
        if has(self.names, name) {
            return Ok(true);
        }
        is_library(self.alloc, self.names, name)
    }

    /// A field of a name, which is a builtin where the name is a global and the two are a builtin's path.
    pub(crate) fn path(
        &mut self,
        within: Within,
        at: ExprId,
        base: &Expr,
        field: &Bytes,
    ) -> Result<(), AllocError>
        ensures { OnOk result (self.new ≡ after_part (finds.of_path (around_in self.old within) at (finds.kind_of (view_expr base.now)) field.now) self.old) }
    {
        match name_of(base) {
            None => Ok(()),
            Some(name) => self.field(within, at, name, field),
        }
    }

    /// The same, where the name is known.
    fn field(
        &mut self,
        within: Within,
        at: ExprId,
        name: &Bytes,
        field: &Bytes,
    ) -> Result<(), AllocError>
        ensures { OnOk result (self.new ≡ after_part (finds.of_path (around_in self.old within) at (plain.NameExpr name.now) field.now) self.old) }
    {
        if self.scope.meant(name).is_some() {
            return Ok(());
        }
        let path = dotted(self.alloc, name, field)?;
        if !has(self.names, &path) {
            return Ok(());
        }
        self.found.mean(at, Use::Builtin(path))
    }

    /// Whether an expression is the global that loads modules.
    fn loads_modules(&self, within: Within, callee: &Expr) -> Result<bool, AllocError>
        ensures { IfOk result (λ loads. loads ≡ finds.loads_modules (around_in self.now within) (finds.kind_of (view_expr callee.now))) }
    {
        match name_of(callee) {
            None => Ok(false),
            Some(name) => self.is_loader(within, name),
        }
    }

    /// Whether a name is the global that loads modules.
    fn is_loader(&self, within: Within, name: &Bytes) -> Result<bool, AllocError>
        ensures { IfOk result (λ loads. loads ≡ finds.loads_modules (around_in self.now within) (plain.NameExpr name.now)) }
    {
        if !is_require(name) {
            return Ok(false);
        }
        if self.scope.meant(name).is_some() {
            return Ok(false);
        }
        Ok(!self.is_fixed(within, name)?)
    }

    /// The way to a module that a call's only argument is, where its callee is the global `require`.
    fn required_way<'t>(
        &self,
        within: Within,
        callee: &Expr,
        args: &'t [Expr],
    ) -> Result<Option<&'t Bytes>, AllocError>
        ensures { IfOk result (λ way. option_map (λ text. text.now) way ≡ finds.required_way (around_in self.now within) (finds.kind_of (view_expr callee.now)) (view_exprs args.now)) }
    {
        if self.loads_modules(within, callee)? {
            Ok(only_way(args))
        } else {
            Ok(None)
        }
    }

    /// A static require, but for its arguments. Answers whether the call is one.
    pub(crate) fn static_require(
        &mut self,
        within: Within,
        call: &Expr,
        callee: &Expr,
        args: &[Expr],
    ) -> Result<bool, AllocError>
        ensures found { OnOk result (self.new ≡ after_part (finds.of_static (finds.required_way (around_in self.old within) (finds.kind_of (view_expr callee.now)) (view_exprs args.now))
            (finds.id_of (view_expr call.now)) (finds.span_of (view_expr call.now)) (finds.id_of (view_expr callee.now))) self.old) }
        ensures done { IfOk result (λ done. done ≡ is_some (finds.required_way (around_in self.old within) (finds.kind_of (view_expr callee.now)) (view_exprs args.now))) }
    {
        let Some(text) = self.required_way(within, callee, args)? else {
            return Ok(false);
        };
        let text = copy(self.alloc, text)?;
        self.found.require(RequireSite {
            at: call.id,
            span: call.span,
            text,
        })?;
        self.found.mean(callee.id, Use::Global)?;
        Ok(true)
    }
}

/// The only one of some arguments, if it is a way to a module.
fn only_way(args: &[Expr]) -> Option<&Bytes>
    ensures { option_map (λ text. text.now) result ≡ finds.way_in (finds.only_string (view_exprs args.now)) }
{
    let [arg, others @ ..] = args else {
        return None;
    };
    if others.len() > 0 {
        return None;
    }
    way_of(arg)
}

/// The string that an expression is, if it is a way to a module.
fn way_of(e: &Expr) -> Option<&Bytes>
    ensures { option_map (λ text. text.now) result ≡ finds.way_in (finds.string_of (finds.kind_of (view_expr e.now))) }
{
    match string_of(e) {
        None => None,
        Some(text) => { if is_way(text) { Some(text) } else { None } }
    }
}

/// The string that an expression is.
fn string_of(e: &Expr) -> Option<&Bytes>
    ensures { option_map (λ text. text.now) result ≡ finds.string_of (finds.kind_of (view_expr e.now)) }
{
    match &e.kind {
        ExprKind::Str(text) => Some(text),
        _ => None,
    }
}
