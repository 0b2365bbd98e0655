//! Statements.
ghost use Rattle.luau_tree.specs.Tree as plain;
ghost use Rattle.luau_tree.specs.View.{view_arms, view_bind, view_binds, view_block, view_body, view_expr, view_exprs, view_gens, view_maybe_block, view_maybe_expr, view_stat, view_type};
ghost use Rattle.tree_numbers.specs.Calls.{Calls};
ghost use Rattle.tree_numbers.specs.Bounds.{of_bounds};
ghost use Rattle.tree_numbers.specs.Numbered.{of_stat};
ghost use Rattle.tree_numbers.specs.Outcomes.{Gives};

use crate::error::NumberError;
use crate::numbers::Numbers;
use crate::pass::Pass;
use luau_tree::stats::{
    assign_stat, break_stat, call_stat, compound_stat, continue_stat, do_stat, function_stat,
    gen_for_stat, if_stat, local_function_stat, local_stat, num_for_stat, repeat_stat, return_stat,
    type_alias_stat, type_function_stat, while_stat,
};
use luau_tree::{
    Arm, BinOp, Bind, Block, Body, Bytes, Expr, Gen, Span, Stat, StatKind, TypeSyntax,
};
use sqlite_items::Items;
use std::alloc::Global;

impl<
    E: Fn(Global, &mut Numbers, usize, Expr) -> Result<Expr, NumberError>,
    T: Fn(Global, &mut Numbers, usize, TypeSyntax) -> Result<TypeSyntax, NumberError>,
    B: Fn(Global, &mut Numbers, usize, Block) -> Result<Block, NumberError>,
> Pass<E, T, B> {
    /// `a, b = x, y`
    fn assign(
        &self,
        numbers: &mut Numbers,
        span: Span,
        targets: Items<Expr>,
        values: Items<Expr>,
    ) -> Result<Stat, NumberError>
        requires { Calls self.now.depth (E.pre self.now.exp) (E.post self.now.exp) (T.pre self.now.typ) (T.post self.now.typ) (B.pre self.now.block) (B.post self.now.block) }
        ensures { Gives view_stat (of_stat (plain.the_stat span (plain.Assign (view_exprs targets) (view_exprs values)))) numbers.old result numbers.new }
    {
        let targets = self.exprs(numbers, targets)?;
        let values = self.exprs(numbers, values)?;
        Ok(assign_stat(span, targets, values))
    }

    /// `a += x`
    fn compound(
        &self,
        numbers: &mut Numbers,
        span: Span,
        target: Expr,
        op: BinOp,
        value: Expr,
    ) -> Result<Stat, NumberError>
        requires { Calls self.now.depth (E.pre self.now.exp) (E.post self.now.exp) (T.pre self.now.typ) (T.post self.now.typ) (B.pre self.now.block) (B.post self.now.block) }
        ensures { Gives view_stat (of_stat (plain.the_stat span (plain.Compound (view_expr target) op (view_expr value)))) numbers.old result numbers.new }
    {
        let target = self.expression(numbers, target)?;
        let value = self.expression(numbers, value)?;
        Ok(compound_stat(span, target, op, value))
    }

    /// `while c do .. end`
    fn while_loop(
        &self,
        numbers: &mut Numbers,
        span: Span,
        cond: Expr,
        body: Block,
    ) -> Result<Stat, NumberError>
        requires { Calls self.now.depth (E.pre self.now.exp) (E.post self.now.exp) (T.pre self.now.typ) (T.post self.now.typ) (B.pre self.now.block) (B.post self.now.block) }
        ensures { Gives view_stat (of_stat (plain.the_stat span (plain.While (view_expr cond) (view_block body)))) numbers.old result numbers.new }
    {
        let cond = self.expression(numbers, cond)?;
        let body = self.block(numbers, body)?;
        Ok(while_stat(span, cond, body))
    }

    /// `repeat .. until c`
    fn repeat_loop(
        &self,
        numbers: &mut Numbers,
        span: Span,
        body: Block,
        cond: Expr,
    ) -> Result<Stat, NumberError>
        requires { Calls self.now.depth (E.pre self.now.exp) (E.post self.now.exp) (T.pre self.now.typ) (T.post self.now.typ) (B.pre self.now.block) (B.post self.now.block) }
        ensures { Gives view_stat (of_stat (plain.the_stat span (plain.Repeat (view_block body) (view_expr cond)))) numbers.old result numbers.new }
    {
        let body = self.block(numbers, body)?;
        let cond = self.expression(numbers, cond)?;
        Ok(repeat_stat(span, body, cond))
    }

    /// `if .. then .. else .. end`
    fn branches(
        &self,
        numbers: &mut Numbers,
        span: Span,
        arms: Items<Arm>,
        last: Option<Block>,
    ) -> Result<Stat, NumberError>
        requires { Calls self.now.depth (E.pre self.now.exp) (E.post self.now.exp) (T.pre self.now.typ) (T.post self.now.typ) (B.pre self.now.block) (B.post self.now.block) }
        ensures { Gives view_stat (of_stat (plain.the_stat span (plain.If (view_arms arms) (view_maybe_block last)))) numbers.old result numbers.new }
    {
        let arms = self.arms(numbers, arms)?;
        let last = self.maybe_block(numbers, last)?;
        Ok(if_stat(span, arms, last))
    }

    /// The bounds of a loop over numbers.
    fn bounds(
        &self,
        numbers: &mut Numbers,
        from: Expr,
        to: Expr,
        step: Option<Expr>,
    ) -> Result<(Expr, Expr, Option<Expr>), NumberError>
        requires { Calls self.now.depth (E.pre self.now.exp) (E.post self.now.exp) (T.pre self.now.typ) (T.post self.now.typ) (B.pre self.now.block) (B.post self.now.block) }
        ensures { Gives (λ b. (view_expr b.0, view_expr b.1, view_maybe_expr b.2)) (of_bounds (view_expr from) (view_expr to) (view_maybe_expr step)) numbers.old result numbers.new }
    {
        let from = self.expression(numbers, from)?;
        let to = self.expression(numbers, to)?;
        let step = self.maybe_expr(numbers, step)?;
        Ok((from, to, step))
    }

    /// `for i = a, b, c do .. end`
    fn num_for(
        &self,
        numbers: &mut Numbers,
        span: Span,
        bind: Bind,
        from: Expr,
        to: Expr,
        step: Option<Expr>,
        body: Block,
    ) -> Result<Stat, NumberError>
        requires { Calls self.now.depth (E.pre self.now.exp) (E.post self.now.exp) (T.pre self.now.typ) (T.post self.now.typ) (B.pre self.now.block) (B.post self.now.block) }
        ensures { Gives view_stat (of_stat (plain.the_stat span (plain.NumFor (view_bind bind) (view_expr from) (view_expr to) (view_maybe_expr step) (view_block body)))) numbers.old result numbers.new }
    {
        let bind = self.bind(numbers, bind)?;
        let (from, to, step) = self.bounds(numbers, from, to, step)?;
        let body = self.block(numbers, body)?;
        Ok(num_for_stat(span, bind, from, to, step, body))
    }

    /// `for a, b in x, y do .. end`
    fn gen_for(
        &self,
        numbers: &mut Numbers,
        span: Span,
        binds: Items<Bind>,
        values: Items<Expr>,
        body: Block,
    ) -> Result<Stat, NumberError>
        requires { Calls self.now.depth (E.pre self.now.exp) (E.post self.now.exp) (T.pre self.now.typ) (T.post self.now.typ) (B.pre self.now.block) (B.post self.now.block) }
        ensures { Gives view_stat (of_stat (plain.the_stat span (plain.GenFor (view_binds binds) (view_exprs values) (view_block body)))) numbers.old result numbers.new }
    {
        let binds = self.binds(numbers, binds)?;
        let values = self.exprs(numbers, values)?;
        let body = self.block(numbers, body)?;
        Ok(gen_for_stat(span, binds, values, body))
    }

    /// `function a.b.c:m() .. end`
    fn function(
        &self,
        numbers: &mut Numbers,
        span: Span,
        path: Expr,
        method: Option<Bytes>,
        body: Body,
    ) -> Result<Stat, NumberError>
        requires { Calls self.now.depth (E.pre self.now.exp) (E.post self.now.exp) (T.pre self.now.typ) (T.post self.now.typ) (B.pre self.now.block) (B.post self.now.block) }
        ensures { Gives view_stat (of_stat (plain.the_stat span (plain.FunctionStat (view_expr path) method (view_body body)))) numbers.old result numbers.new }
    {
        let path = self.expression(numbers, path)?;
        let body = self.body(numbers, body)?;
        Ok(function_stat(span, path, method, body))
    }

    /// `local function f() .. end`
    fn local_function(
        &self,
        numbers: &mut Numbers,
        span: Span,
        name: Bind,
        body: Body,
    ) -> Result<Stat, NumberError>
        requires { Calls self.now.depth (E.pre self.now.exp) (E.post self.now.exp) (T.pre self.now.typ) (T.post self.now.typ) (B.pre self.now.block) (B.post self.now.block) }
        ensures { Gives view_stat (of_stat (plain.the_stat span (plain.LocalFunction (view_bind name) (view_body body)))) numbers.old result numbers.new }
    {
        let name = self.bind(numbers, name)?;
        let body = self.body(numbers, body)?;
        Ok(local_function_stat(span, name, body))
    }

    /// `local a, b = x, y`
    fn local(
        &self,
        numbers: &mut Numbers,
        span: Span,
        binds: Items<Bind>,
        values: Items<Expr>,
    ) -> Result<Stat, NumberError>
        requires { Calls self.now.depth (E.pre self.now.exp) (E.post self.now.exp) (T.pre self.now.typ) (T.post self.now.typ) (B.pre self.now.block) (B.post self.now.block) }
        ensures { Gives view_stat (of_stat (plain.the_stat span (plain.Local (view_binds binds) (view_exprs values)))) numbers.old result numbers.new }
    {
        let binds = self.binds(numbers, binds)?;
        let values = self.exprs(numbers, values)?;
        Ok(local_stat(span, binds, values))
    }

    /// `export type T<U> = V`
    fn type_alias(
        &self,
        numbers: &mut Numbers,
        span: Span,
        exported: bool,
        name: Bytes,
        generics: Items<Gen>,
        typ: TypeSyntax,
    ) -> Result<Stat, NumberError>
        requires { Calls self.now.depth (E.pre self.now.exp) (E.post self.now.exp) (T.pre self.now.typ) (T.post self.now.typ) (B.pre self.now.block) (B.post self.now.block) }
        ensures { Gives view_stat (of_stat (plain.the_stat span (plain.TypeAlias exported name (view_gens generics) (view_type typ)))) numbers.old result numbers.new }
    {
        let generics = self.gens(numbers, generics)?;
        let typ = self.typ(numbers, typ)?;
        Ok(type_alias_stat(span, exported, name, generics, typ))
    }

    /// A statement.
    #[tactic(auto, using(crate::proofs::Layers::stat_layer, luau_tree::proofs::Views::assign_stat_seen, luau_tree::proofs::Views::compound_stat_seen, luau_tree::proofs::Views::call_stat_seen, luau_tree::proofs::Views::do_stat_seen, luau_tree::proofs::Views::while_stat_seen, luau_tree::proofs::Views::repeat_stat_seen, luau_tree::proofs::Views::if_stat_seen, luau_tree::proofs::Views::num_for_stat_seen, luau_tree::proofs::Views::gen_for_stat_seen, luau_tree::proofs::Views::function_stat_seen, luau_tree::proofs::Views::local_function_stat_seen, luau_tree::proofs::Views::local_stat_seen, luau_tree::proofs::Views::type_alias_stat_seen, luau_tree::proofs::Views::type_function_stat_seen, luau_tree::proofs::Views::return_stat_seen, luau_tree::proofs::Views::break_stat_seen, luau_tree::proofs::Views::continue_stat_seen))]
    pub fn statement(&self, numbers: &mut Numbers, stat: Stat) -> Result<Stat, NumberError>
        requires { Calls self.now.depth (E.pre self.now.exp) (E.post self.now.exp) (T.pre self.now.typ) (T.post self.now.typ) (B.pre self.now.block) (B.post self.now.block) }
        ensures { Gives view_stat (of_stat (view_stat stat)) numbers.old result numbers.new }
    {
        let Stat { span, kind } = stat;
        match kind {
            StatKind::Assign { targets, values } => self.assign(numbers, span, targets, values),
            StatKind::Compound { target, op, value } => {
                self.compound(numbers, span, target, op, value)
            }
            StatKind::CallStat(call) => Ok(call_stat(span, self.expression(numbers, call)?)),
            StatKind::Do(body) => Ok(do_stat(span, self.block(numbers, body)?)),
            StatKind::While { cond, body } => self.while_loop(numbers, span, cond, body),
            StatKind::Repeat { body, cond } => self.repeat_loop(numbers, span, body, cond),
            StatKind::If { arms, last } => self.branches(numbers, span, arms, last),
            StatKind::NumFor {
                bind,
                from,
                to,
                step,
                body,
            } => self.num_for(numbers, span, bind, from, to, step, body),
            StatKind::GenFor {
                binds,
                values,
                body,
            } => self.gen_for(numbers, span, binds, values, body),
            StatKind::Function { path, method, body } => {
                self.function(numbers, span, path, method, body)
            }
            StatKind::LocalFunction { name, body } => {
                self.local_function(numbers, span, name, body)
            }
            StatKind::Local { binds, values } => self.local(numbers, span, binds, values),
            StatKind::TypeAlias {
                exported,
                name,
                generics,
                typ,
            } => self.type_alias(numbers, span, exported, name, generics, typ),
            StatKind::TypeFunction {
                exported,
                name,
                body,
            } => {
                let body = self.body(numbers, body)?;
                Ok(type_function_stat(span, exported, name, body))
            }
            StatKind::Return(values) => Ok(return_stat(span, self.exprs(numbers, values)?)),
            StatKind::Break => Ok(break_stat(span)),
            StatKind::Continue => Ok(continue_stat(span)),
        }
    }
}
