//! The way through statements.
ghost use Rattle.std.specs.Prelude.{◌≡◌, OnOk};
ghost use Rattle.luau_tree.specs.Tree as plain;
ghost use Rattle.luau_tree.specs.View.{view_arms, view_bind, view_binds, view_block, view_body, view_expr, view_exprs, view_maybe_block, view_maybe_expr, view_stat_kind, view_stats};
ghost use Rattle.luau_scope.specs.Steps.{run, after_arms, after_block, after_maybe_block, after_part, after_pass, after_stat, after_stats, after_until, loop_of};
ghost use Rattle.luau_scope.specs.Finds as finds;
ghost use Rattle.luau_tree.specs.declared.position.Span.{Span};

use crate::numbers::Numbers;
use crate::refusal::Refusal;
use crate::task::{Locals, Repeated, Task};
use crate::walker::Walker;
use crate::within::{LoopAround, Within};
use luau_tree::{Arm, Bind, Block, Expr, Span, Stat, StatKind};
use sqlite_items::Items;
use std::alloc::AllocError;

impl<'p> Walker<'p> {
    /// Statements, whose locals stay in scope. What is to be gone through first is pushed last, here and below.
    pub(crate) fn stats<'t>(
        &mut self,
        tasks: &mut Items<Task<'t>>,
        within: Within,
        stats: &'t [Stat],
    ) -> Result<(), AllocError>
        ensures { OnOk result (run tasks.new self.new ≡ run tasks.old (after_stats within (view_stats stats.now) self.old)) }
    {
        let [first, rest @ ..] = stats else {
            return Ok(());
        };
        tasks.push(Task::Stats(within, rest))?;
        self.stat(tasks, within, first.span, &first.kind)
    }

    fn stat<'t>(
        &mut self,
        tasks: &mut Items<Task<'t>>,
        within: Within,
        span: Span,
        kind: &'t StatKind,
    ) -> Result<(), AllocError>
        ensures { OnOk result (run tasks.new self.new ≡ run tasks.old (after_stat within span (view_stat_kind kind.now) self.old)) }
    {
        match kind {
            StatKind::Assign { targets, values } => {
                let earlier = Numbers::new(self.alloc);
                tasks.push(Task::Exprs(within, values.as_slice()))?;
                tasks.push(Task::Targets(within, targets.as_slice(), earlier))
            }
            StatKind::Compound { target, value, .. } => {
                let earlier = Numbers::new(self.alloc);
                tasks.push(Task::Expr(within, value))?;
                tasks.push(Task::Aim(within, target, &[], earlier))?;
                tasks.push(Task::Expr(within, target))
            }
            StatKind::CallStat(e) => tasks.push(Task::Expr(within, e)),
            StatKind::Do(body) => tasks.push(Task::Block(within, body)),
            StatKind::While { cond, body } => {
                tasks.push(Task::Block(within.in_loop(LoopAround::Other), body))?;
                tasks.push(Task::Expr(within, cond))
            }
            StatKind::Repeat { body, cond } => self.repeat(tasks, within, body, cond),
            StatKind::If { arms, last } => {
                tasks.push(Task::Last(within, last))?;
                tasks.push(Task::Arms(within, arms.as_slice()))
            }
            StatKind::NumFor {
                bind,
                from,
                to,
                step,
                body,
            } => self.num_for(tasks, within, bind, from, to, step, body),
            StatKind::GenFor {
                binds,
                values,
                body,
            } => self.gen_for(tasks, within, binds.as_slice(), values.as_slice(), body),
            StatKind::Function { path, method, body } => {
                tasks.push(Task::Body(within, body))?;
                tasks.push(Task::Named(within, path, method))?;
                tasks.push(Task::Expr(within, path))
            }
            StatKind::LocalFunction { name, body } => {
                self.own_bind(within, name)?;
                tasks.push(Task::Body(within, body))?;
                tasks.push(Task::MaybeType(within, &name.typ))
            }
            StatKind::Local { binds, values } => {
                self.local_stat(tasks, within, binds.as_slice(), values.as_slice())
            }
            StatKind::TypeAlias { generics, typ, .. } => {
                tasks.push(Task::Type(within, typ))?;
                tasks.push(Task::Gens(within, generics.as_slice()))
            }
            StatKind::TypeFunction { body, .. } => {
                self.refuse_if(true, Refusal::TypeFunction, span);
                tasks.push(Task::Body(within, body))
            }
            StatKind::Return(values) => tasks.push(Task::Exprs(within, values.as_slice())),
            StatKind::Break => {
                self.leave_loop(within, span);
                Ok(())
            }
            StatKind::Continue => self.next_turn(within, span),
        }
    }

    /// A block and the end of its scope.
    pub(crate) fn block<'t>(
        &mut self,
        tasks: &mut Items<Task<'t>>,
        within: Within,
        block: &'t Block,
    ) -> Result<(), AllocError>
        ensures { OnOk result (run tasks.new self.new ≡ run tasks.old (after_block within (view_block block.now) self.old)) }
    {
        tasks.push(Task::Close(self.scope.len()))?;
        tasks.push(Task::Stats(within, block.stats.as_slice()))
    }

    pub(crate) fn arms<'t>(
        &mut self,
        tasks: &mut Items<Task<'t>>,
        within: Within,
        arms: &'t [Arm],
    ) -> Result<(), AllocError>
        ensures { OnOk result (run tasks.new self.new ≡ run tasks.old (after_arms within (view_arms arms.now) self.old)) }
    {
        let [first, rest @ ..] = arms else {
            return Ok(());
        };
        tasks.push(Task::Arms(within, rest))?;
        tasks.push(Task::Block(within, &first.block))?;
        tasks.push(Task::Expr(within, &first.cond))
    }

    pub(crate) fn last<'t>(
        &mut self,
        tasks: &mut Items<Task<'t>>,
        within: Within,
        last: &'t Option<Block>,
    ) -> Result<(), AllocError>
        ensures { OnOk result (run tasks.new self.new ≡ run tasks.old (after_maybe_block within (view_maybe_block last.now) self.old)) }
    {
        match last {
            None => Ok(()),
            Some(block) => tasks.push(Task::Block(within, block)),
        }
    }

    /// A numeric `for`.
    fn num_for<'t>(
        &mut self,
        tasks: &mut Items<Task<'t>>,
        within: Within,
        bind: &'t Bind,
        from: &'t Expr,
        to: &'t Expr,
        step: &'t Option<Expr>,
        body: &'t Block,
    ) -> Result<(), AllocError>
        ensures { OnOk result ((span : Span) → run tasks.new self.new
            ≡ run tasks.old (after_stat within span (plain.NumFor (view_bind bind.now) (view_expr from.now) (view_expr to.now) (view_maybe_expr step.now) (view_block body.now)) self.old)) }
    {
        let number = self.number()?;
        tasks.push(Task::Close(self.scope.len()))?;
        tasks.push(Task::Stats(within.in_loop(LoopAround::Other), body.stats.as_slice()))?;
        tasks.push(Task::Entry(within, bind, number))?;
        tasks.push(Task::MaybeExpr(within, step))?;
        tasks.push(Task::Expr(within, to))?;
        tasks.push(Task::Expr(within, from))?;
        tasks.push(Task::MaybeType(within, &bind.typ))?;
        self.declare(within, None, bind)
    }

    /// A `for` with an iterator.
    fn gen_for<'t>(
        &mut self,
        tasks: &mut Items<Task<'t>>,
        within: Within,
        binds: &'t [Bind],
        values: &'t [Expr],
        body: &'t Block,
    ) -> Result<(), AllocError>
        ensures { OnOk result ((span : Span) → run tasks.new self.new
            ≡ run tasks.old (after_stat within span (plain.GenFor (view_binds binds.now) (view_exprs values.now) (view_block body.now)) self.old)) }
    {
        let locals = Locals {
            all: binds,
            rest: binds,
            given: &[],
            values,
            numbers: Items::new(self.alloc),
        };
        tasks.push(Task::Close(self.scope.len()))?;
        tasks.push(Task::Stats(within.in_loop(LoopAround::Other), body.stats.as_slice()))?;
        tasks.push(Task::Locals(within, locals))
    }

    /// A `local`.
    fn local_stat<'t>(
        &mut self,
        tasks: &mut Items<Task<'t>>,
        within: Within,
        binds: &'t [Bind],
        values: &'t [Expr],
    ) -> Result<(), AllocError>
        ensures { OnOk result ((span : Span) → run tasks.new self.new
            ≡ run tasks.old (after_stat within span (plain.Local (view_binds binds.now) (view_exprs values.now)) self.old)) }
    {
        let locals = Locals {
            all: binds,
            rest: binds,
            given: values,
            values,
            numbers: Items::new(self.alloc),
        };
        tasks.push(Task::Locals(within, locals))
    }

    /// A `repeat`, whose `until` is in the scope of its body.
    fn repeat<'t>(
        &mut self,
        tasks: &mut Items<Task<'t>>,
        within: Within,
        body: &'t Block,
        cond: &'t Expr,
    ) -> Result<(), AllocError>
        ensures { OnOk result ((span : Span) → run tasks.new self.new
            ≡ run tasks.old (after_stat within span (plain.Repeat (view_block body.now) (view_expr cond.now)) self.old)) }
    {
        let depth = self.scope.len();
        let start = self.found.pending.len();
        tasks.push(Task::Until(within, cond, depth, start))?;
        tasks.push(Task::Stats(within.in_loop(LoopAround::Repeat), body.stats.as_slice()))
    }

    /// The `until` of a `repeat`, behind its body.
    pub(crate) fn until<'t>(
        &mut self,
        tasks: &mut Items<Task<'t>>,
        within: Within,
        cond: &'t Expr,
        depth: usize,
        start: usize,
    ) -> Result<(), AllocError>
        ensures { OnOk result (run tasks.new self.new ≡ run tasks.old (after_until within (view_expr cond.now) depth start self.old)) }
    {
        let own = self.found.take_own(self.alloc, start)?;
        let uses = self.found.uses.len();
        let declared = self.found.locals.len();
        let repeated = Repeated {
            own,
            uses,
            declared,
            depth,
        };
        tasks.push(Task::Pass(repeated))?;
        tasks.push(Task::Expr(within, cond))
    }

    /// The end of a `repeat`.
    pub(crate) fn pass(&mut self, repeated: &Repeated)
        ensures { self.new ≡ after_pass repeated.now.own repeated.now.uses repeated.now.declared repeated.now.depth self.old }
    {
        self.found
            .pass_locals(repeated.own.as_slice(), repeated.uses, repeated.declared);
        self.scope.close(repeated.depth);
    }

    /// A `break`.
    fn leave_loop(&mut self, within: Within, at: Span)
        ensures { self.new ≡ after_part (finds.of_break (loop_of within.around) at) self.old }
    {
        match within.around {
            LoopAround::Without => self.found.refuse(Refusal::BreakOutsideLoop, at),
            LoopAround::Repeat => {}
            LoopAround::Other => {}
        }
    }

    /// A `continue`.
    fn next_turn(&mut self, within: Within, at: Span) -> Result<(), AllocError>
        ensures { OnOk result (self.new ≡ after_part (finds.of_continue (loop_of within.around) at) self.old) }
    {
        match within.around {
            LoopAround::Without => {
                self.found.refuse(Refusal::ContinueOutsideLoop, at);
                Ok(())
            }
            LoopAround::Repeat => {
                let before = self.number()?;
                self.found.postpone(at, before)
            }
            LoopAround::Other => Ok(()),
        }
    }
}
