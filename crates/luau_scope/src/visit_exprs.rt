//! The way through expressions.
ghost use Rattle.std.specs.Prelude.{◌≡◌, OnOk};
ghost use Rattle.luau_tree.specs.View.{view_body, view_choices, view_expr, view_exprs, view_items, view_maybe_expr};
ghost use Rattle.luau_scope.specs.Finds.{id_of, span_of};
ghost use Rattle.luau_scope.specs.Steps.{run, after_body, after_call, after_choices, after_expr, after_exprs, after_items, after_maybe_expr};

use crate::refusal::Refusal;
use crate::task::Task;
use crate::walker::Walker;
use crate::within::{LoopAround, Within};
use luau_tree::{Body, Choice, Expr, ExprKind, Item};
use sqlite_items::Items;
use std::alloc::AllocError;

impl<'p> Walker<'p> {
    /// An expression. What is to be gone through first is pushed last, here and below.
    pub(crate) fn expr<'t>(
        &mut self,
        tasks: &mut Items<Task<'t>>,
        within: Within,
        e: &'t Expr,
    ) -> Result<(), AllocError>
        ensures { OnOk result (run tasks.new self.new ≡ run tasks.old (after_expr within (view_expr e.now) self.old)) }
    {
        match &e.kind {
            ExprKind::Nil
            | ExprKind::True
            | ExprKind::False
            | ExprKind::Number(_)
            | ExprKind::Str(_) => Ok(()),
            ExprKind::Vararg => {
                self.refuse_if(!within.takes, Refusal::VarargOutside, e.span);
                Ok(())
            }
            ExprKind::Function(body) => tasks.push(Task::Body(within, body.get())),
            ExprKind::Name(name) => self.name(within, e.id, e.span, name),
            ExprKind::Index { base, name } => {
                self.path(within, e.id, base.get(), name)?;
                tasks.push(Task::Expr(within, base.get()))
            }
            ExprKind::At { base, key } => {
                tasks.push(Task::Expr(within, key.get()))?;
                tasks.push(Task::Expr(within, base.get()))
            }
            ExprKind::Call { callee, args } => {
                self.call(tasks, within, e, callee.get(), args.as_slice())
            }
            ExprKind::Method { base, args, .. } => {
                tasks.push(Task::Exprs(within, args.as_slice()))?;
                tasks.push(Task::Expr(within, base.get()))
            }
            ExprKind::Paren(inner) | ExprKind::Unary { e: inner, .. } => {
                tasks.push(Task::Expr(within, inner.get()))
            }
            ExprKind::Binary { left, right, .. } => {
                tasks.push(Task::Expr(within, right.get()))?;
                tasks.push(Task::Expr(within, left.get()))
            }
            ExprKind::IfElse { arms, last } => {
                tasks.push(Task::Expr(within, last.get()))?;
                tasks.push(Task::Choices(within, arms.as_slice()))
            }
            ExprKind::Table(items) => tasks.push(Task::Items(within, items.as_slice())),
            ExprKind::Interp { parts, .. } => tasks.push(Task::Exprs(within, parts.as_slice())),
            ExprKind::Assert { e: inner, typ } => {
                tasks.push(Task::Type(within, typ.get()))?;
                tasks.push(Task::Expr(within, inner.get()))
            }
        }
    }

    /// A call. The callee of a static require is no use that is refused.
    fn call<'t>(
        &mut self,
        tasks: &mut Items<Task<'t>>,
        within: Within,
        call: &Expr,
        callee: &'t Expr,
        args: &'t [Expr],
    ) -> Result<(), AllocError>
        ensures { OnOk result (run tasks.new self.new
            ≡ run tasks.old (after_call within (id_of (view_expr call.now)) (span_of (view_expr call.now)) (view_expr callee.now) (view_exprs args.now) self.old)) }
    {
        let is_static = self.static_require(within, call, callee, args)?;
        tasks.push(Task::Exprs(within, args))?;
        if is_static {
            Ok(())
        } else {
            tasks.push(Task::Expr(within, callee))
        }
    }

    pub(crate) fn exprs<'t>(
        &mut self,
        tasks: &mut Items<Task<'t>>,
        within: Within,
        es: &'t [Expr],
    ) -> Result<(), AllocError>
        ensures { OnOk result (run tasks.new self.new ≡ run tasks.old (after_exprs within (view_exprs es.now) self.old)) }
    {
        let [first, rest @ ..] = es else {
            return Ok(());
        };
        tasks.push(Task::Exprs(within, rest))?;
        tasks.push(Task::Expr(within, first))
    }

    pub(crate) fn maybe_expr<'t>(
        &mut self,
        tasks: &mut Items<Task<'t>>,
        within: Within,
        e: &'t Option<Expr>,
    ) -> Result<(), AllocError>
        ensures { OnOk result (run tasks.new self.new ≡ run tasks.old (after_maybe_expr within (view_maybe_expr e.now) self.old)) }
    {
        match e {
            None => Ok(()),
            Some(e) => tasks.push(Task::Expr(within, e)),
        }
    }

    pub(crate) fn choices<'t>(
        &mut self,
        tasks: &mut Items<Task<'t>>,
        within: Within,
        choices: &'t [Choice],
    ) -> Result<(), AllocError>
        ensures { OnOk result (run tasks.new self.new ≡ run tasks.old (after_choices within (view_choices choices.now) self.old)) }
    {
        let [first, rest @ ..] = choices else {
            return Ok(());
        };
        tasks.push(Task::Choices(within, rest))?;
        tasks.push(Task::Expr(within, &first.value))?;
        tasks.push(Task::Expr(within, &first.cond))
    }

    pub(crate) fn items<'t>(
        &mut self,
        tasks: &mut Items<Task<'t>>,
        within: Within,
        items: &'t [Item],
    ) -> Result<(), AllocError>
        ensures { OnOk result (run tasks.new self.new ≡ run tasks.old (after_items within (view_items items.now) self.old)) }
    {
        let [first, rest @ ..] = items else {
            return Ok(());
        };
        tasks.push(Task::Items(within, rest))?;
        match first {
            Item::Field { value, .. } => tasks.push(Task::Expr(within, value)),
            Item::Plain(value) => tasks.push(Task::Expr(within, value)),
            Item::Keyed { key, value } => {
                tasks.push(Task::Expr(within, value))?;
                tasks.push(Task::Expr(within, key))
            }
        }
    }

    /// The header of a function belongs to the function.
    pub(crate) fn body<'t>(
        &mut self,
        tasks: &mut Items<Task<'t>>,
        within: Within,
        body: &'t Body,
    ) -> Result<(), AllocError>
        ensures { OnOk result (run tasks.new self.new ≡ run tasks.old (after_body within (view_body body.now) self.old)) }
    {
        let depth = self.scope.len();
        let inner = Within {
            function: Some(body.id),
            takes: body.vararg.is_some(),
            outside: depth,
            around: LoopAround::Without,
        };
        tasks.push(Task::Close(depth))?;
        tasks.push(Task::Stats(inner, body.block.stats.as_slice()))?;
        tasks.push(Task::MaybeType(inner, &body.result))?;
        tasks.push(Task::Varargs(inner, &body.vararg))?;
        tasks.push(Task::Params(inner, body.params.as_slice()))?;
        tasks.push(Task::Gens(inner, body.generics.as_slice()))
    }
}
