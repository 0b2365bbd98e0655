//! Expressions. Those that begin with one another are gone through by a loop, from the outside in and back, and what else
//! stands in an expression by a function that goes one deeper.
ghost use Rattle.std.specs.Prelude.{◌≡◌, IfOk};
ghost use Rattle.luau_tree.specs.Tree as plain;
ghost use Rattle.luau_tree.specs.View.{view_choices, view_expr, view_expr_kind};
ghost use Rattle.tree_numbers.specs.Calls.{Calls};
ghost use Rattle.tree_numbers.specs.Numbered.{of_expr, of_expr_kind};
ghost use Rattle.tree_numbers.specs.Outcomes.{Gives, at_number};
ghost use Rattle.tree_numbers.specs.declared.tails.Tail.TheVariants as behind;
ghost use Rattle.tree_numbers.specs.Tails.{closed, goes_on, with_tail};

use crate::error::NumberError;
use crate::numbers::Numbers;
use crate::pass::Pass;
use crate::tails::{Opened, Outer, Tail};
use luau_tree::exprs::{
    assert_expr, at_expr, binary_expr, call_expr, false_expr, function_expr, if_else_expr,
    index_expr, interp_expr, method_expr, name_expr, nil_expr, number_expr, paren_expr, str_expr,
    table_expr, true_expr, unary_expr, vararg_expr,
};
use luau_tree::{BinOp, Block, Bytes, Choice, Expr, ExprId, ExprKind, Span, TypeSyntax};
use sqlite_items::{Boxed, Items};
use std::alloc::Global;

impl<
    E: Fn(Global, &mut Numbers, usize, Expr) -> Result<Expr, NumberError>,
    T: Fn(Global, &mut Numbers, usize, TypeSyntax) -> Result<TypeSyntax, NumberError>,
    B: Fn(Global, &mut Numbers, usize, Block) -> Result<Block, NumberError>,
> Pass<E, T, B> {
    /// `if c then x else y`
    fn if_else(
        &self,
        numbers: &mut Numbers,
        id: ExprId,
        span: Span,
        arms: Items<Choice>,
        last: Boxed<Expr>,
    ) -> Result<Expr, NumberError>
        requires { Calls self.now.depth (E.pre self.now.exp) (E.post self.now.exp) (T.pre self.now.typ) (T.post self.now.typ) (B.pre self.now.block) (B.post self.now.block) }
        ensures { Gives view_expr (at_number id.0 span (of_expr_kind (plain.IfElse (view_choices arms) (view_expr last)))) numbers.old result numbers.new }
    {
        let arms = self.choices(numbers, arms)?;
        let last = self.expression(numbers, last.into_inner())?;
        Ok(if_else_expr(self.alloc, id, span, arms, last)?)
    }

    /// `e[key]`
    fn at(
        &self,
        numbers: &mut Numbers,
        id: ExprId,
        span: Span,
        e: Expr,
        key: Expr,
    ) -> Result<Expr, NumberError>
        requires { Calls self.now.depth (E.pre self.now.exp) (E.post self.now.exp) (T.pre self.now.typ) (T.post self.now.typ) (B.pre self.now.block) (B.post self.now.block) }
        ensures { Gives view_expr (at_number id.0 span (with_tail (behind.At key) (view_expr e))) numbers.old result numbers.new }
    {
        let key = self.expression(numbers, key)?;
        Ok(at_expr(self.alloc, id, span, e, key)?)
    }

    /// `e(args)`
    fn call(
        &self,
        numbers: &mut Numbers,
        id: ExprId,
        span: Span,
        e: Expr,
        args: Items<Expr>,
    ) -> Result<Expr, NumberError>
        requires { Calls self.now.depth (E.pre self.now.exp) (E.post self.now.exp) (T.pre self.now.typ) (T.post self.now.typ) (B.pre self.now.block) (B.post self.now.block) }
        ensures { Gives view_expr (at_number id.0 span (with_tail (behind.Call args) (view_expr e))) numbers.old result numbers.new }
    {
        let args = self.exprs(numbers, args)?;
        Ok(call_expr(self.alloc, id, span, e, args)?)
    }

    /// `e:name(args)`
    fn method(
        &self,
        numbers: &mut Numbers,
        id: ExprId,
        span: Span,
        e: Expr,
        name: Bytes,
        name_span: Span,
        args: Items<Expr>,
    ) -> Result<Expr, NumberError>
        requires { Calls self.now.depth (E.pre self.now.exp) (E.post self.now.exp) (T.pre self.now.typ) (T.post self.now.typ) (B.pre self.now.block) (B.post self.now.block) }
        ensures { Gives view_expr (at_number id.0 span (with_tail (behind.Method name name_span args) (view_expr e))) numbers.old result numbers.new }
    {
        let args = self.exprs(numbers, args)?;
        Ok(method_expr(self.alloc, id, span, e, name, name_span, args)?)
    }

    /// `e op right`
    fn binary(
        &self,
        numbers: &mut Numbers,
        id: ExprId,
        span: Span,
        e: Expr,
        op: BinOp,
        right: Expr,
    ) -> Result<Expr, NumberError>
        requires { Calls self.now.depth (E.pre self.now.exp) (E.post self.now.exp) (T.pre self.now.typ) (T.post self.now.typ) (B.pre self.now.block) (B.post self.now.block) }
        ensures { Gives view_expr (at_number id.0 span (with_tail (behind.Binary op right) (view_expr e))) numbers.old result numbers.new }
    {
        let right = self.expression(numbers, right)?;
        Ok(binary_expr(self.alloc, id, span, op, e, right)?)
    }

    /// `e :: T`
    fn assert(
        &self,
        numbers: &mut Numbers,
        id: ExprId,
        span: Span,
        e: Expr,
        typ: TypeSyntax,
    ) -> Result<Expr, NumberError>
        requires { Calls self.now.depth (E.pre self.now.exp) (E.post self.now.exp) (T.pre self.now.typ) (T.post self.now.typ) (B.pre self.now.block) (B.post self.now.block) }
        ensures { Gives view_expr (at_number id.0 span (with_tail (behind.Assert typ) (view_expr e))) numbers.old result numbers.new }
    {
        let typ = self.typ(numbers, typ)?;
        Ok(assert_expr(self.alloc, id, span, e, typ)?)
    }

    /// An expression around one that has its numbers.
    fn with_tail(
        &self,
        numbers: &mut Numbers,
        id: ExprId,
        span: Span,
        tail: Tail,
        e: Expr,
    ) -> Result<Expr, NumberError>
        requires { Calls self.now.depth (E.pre self.now.exp) (E.post self.now.exp) (T.pre self.now.typ) (T.post self.now.typ) (B.pre self.now.block) (B.post self.now.block) }
        ensures { Gives view_expr (at_number id.0 span (with_tail tail (view_expr e))) numbers.old result numbers.new }
    {
        match tail {
            Tail::Index(name) => Ok(index_expr(self.alloc, id, span, e, name)?),
            Tail::At(key) => self.at(numbers, id, span, e, key),
            Tail::Call(args) => self.call(numbers, id, span, e, args),
            Tail::Method {
                name,
                name_span,
                args,
            } => self.method(numbers, id, span, e, name, name_span, args),
            Tail::Binary { op, right } => self.binary(numbers, id, span, e, op, right),
            Tail::Assert(typ) => self.assert(numbers, id, span, e, typ),
        }
    }

    /// What stands in an expression, unless it begins with another one.
    #[tactic(auto, using(luau_tree::proofs::Views::nil_expr_seen, luau_tree::proofs::Views::true_expr_seen, luau_tree::proofs::Views::false_expr_seen, luau_tree::proofs::Views::number_expr_seen, luau_tree::proofs::Views::str_expr_seen, luau_tree::proofs::Views::vararg_expr_seen, luau_tree::proofs::Views::function_expr_seen, luau_tree::proofs::Views::name_expr_seen, luau_tree::proofs::Views::index_expr_seen, luau_tree::proofs::Views::at_expr_seen, luau_tree::proofs::Views::call_expr_seen, luau_tree::proofs::Views::method_expr_seen, luau_tree::proofs::Views::paren_expr_seen, luau_tree::proofs::Views::unary_expr_seen, luau_tree::proofs::Views::binary_expr_seen, luau_tree::proofs::Views::if_else_expr_seen, luau_tree::proofs::Views::table_expr_seen, luau_tree::proofs::Views::interp_expr_seen, luau_tree::proofs::Views::assert_expr_seen))]
    fn opened(
        &self,
        numbers: &mut Numbers,
        id: ExprId,
        span: Span,
        kind: ExprKind,
    ) -> Result<Opened, NumberError>
        requires { Calls self.now.depth (E.pre self.now.exp) (E.post self.now.exp) (T.pre self.now.typ) (T.post self.now.typ) (B.pre self.now.block) (B.post self.now.block) }
        ensures { IfOk result (λ found. at_number id.0 span (of_expr_kind (view_expr_kind kind)) numbers.old
            ≡ goes_on id.0 span found numbers.new) }
    {
        match kind {
            ExprKind::Nil => Ok(Opened::Done(nil_expr(id, span))),
            ExprKind::True => Ok(Opened::Done(true_expr(id, span))),
            ExprKind::False => Ok(Opened::Done(false_expr(id, span))),
            ExprKind::Number(text) => Ok(Opened::Done(number_expr(id, span, text))),
            ExprKind::Str(bytes) => Ok(Opened::Done(str_expr(id, span, bytes))),
            ExprKind::Vararg => Ok(Opened::Done(vararg_expr(id, span))),
            ExprKind::Function(body) => {
                let body = self.body(numbers, body.into_inner())?;
                Ok(Opened::Done(function_expr(self.alloc, id, span, body)?))
            }
            ExprKind::Name(name) => Ok(Opened::Done(name_expr(id, span, name))),
            ExprKind::Index { base, name } => Ok(Opened::Begun {
                first: base.into_inner(),
                tail: Tail::Index(name),
            }),
            ExprKind::At { base, key } => Ok(Opened::Begun {
                first: base.into_inner(),
                tail: Tail::At(key.into_inner()),
            }),
            ExprKind::Call { callee, args } => Ok(Opened::Begun {
                first: callee.into_inner(),
                tail: Tail::Call(args),
            }),
            ExprKind::Method {
                base,
                name,
                name_span,
                args,
            } => Ok(Opened::Begun {
                first: base.into_inner(),
                tail: Tail::Method {
                    name,
                    name_span,
                    args,
                },
            }),
            ExprKind::Paren(e) => {
                let e = self.expression(numbers, e.into_inner())?;
                Ok(Opened::Done(paren_expr(self.alloc, id, span, e)?))
            }
            ExprKind::Unary { op, e } => {
                let e = self.expression(numbers, e.into_inner())?;
                Ok(Opened::Done(unary_expr(self.alloc, id, span, op, e)?))
            }
            ExprKind::Binary { op, left, right } => Ok(Opened::Begun {
                first: left.into_inner(),
                tail: Tail::Binary {
                    op,
                    right: right.into_inner(),
                },
            }),
            ExprKind::IfElse { arms, last } => {
                let e = self.if_else(numbers, id, span, arms, last)?;
                Ok(Opened::Done(e))
            }
            ExprKind::Table(items) => {
                let items = self.items(numbers, items)?;
                Ok(Opened::Done(table_expr(id, span, items)))
            }
            ExprKind::Interp { texts, parts } => {
                let parts = self.exprs(numbers, parts)?;
                Ok(Opened::Done(interp_expr(id, span, texts, parts)))
            }
            ExprKind::Assert { e, typ } => Ok(Opened::Begun {
                first: e.into_inner(),
                tail: Tail::Assert(typ.into_inner()),
            }),
        }
    }

    /// The expressions that begin with one another, from the outside in, and the innermost, whose parts have their numbers.
    #[tactic(auto, using(crate::proofs::Spines::turn, crate::proofs::Spines::stop))]
    fn inwards(&self, numbers: &mut Numbers, e: Expr) -> Result<(Items<Outer>, Expr), NumberError>
        requires { Calls self.now.depth (E.pre self.now.exp) (E.post self.now.exp) (T.pre self.now.typ) (T.post self.now.typ) (B.pre self.now.block) (B.post self.now.block) }
        ensures { IfOk result (λ found. of_expr (view_expr e) numbers.old ≡ closed found.0 (view_expr found.1) numbers.new) }
    {
        let mut outer = Items::new(self.alloc);
        let mut inner = e;
        // Each turn takes a number.
        for _ in 0..u32::MAX {
            let Expr { span, kind, .. } = inner;
            let id = numbers.expression()?;
            match self.opened(numbers, id, span, kind)? {
                Opened::Done(innermost) => return Ok((outer, innermost)),
                Opened::Begun { first, tail } => {
                    outer.push(Outer { id, span, tail })?;
                    inner = first;
                }
            }
        }
        Err(NumberError::NoNumber)
    }

    /// The first of some expressions that begin with one another, by the innermost.
    fn outwards(
        &self,
        numbers: &mut Numbers,
        outer: Items<Outer>,
        e: Expr,
    ) -> Result<Expr, NumberError>
        requires { Calls self.now.depth (E.pre self.now.exp) (E.post self.now.exp) (T.pre self.now.typ) (T.post self.now.typ) (B.pre self.now.block) (B.post self.now.block) }
        ensures { Gives view_expr (closed outer (view_expr e)) numbers.old result numbers.new }
    {
        let mut rest = outer;
        let mut done = e;
        while let Some(last) = rest.pop() {
            let Outer { id, span, tail } = last;
            done = self.with_tail(numbers, id, span, tail, done)?;
        }
        Ok(done)
    }

    /// An expression, and what stands in it.
    pub fn expression_inside(&self, numbers: &mut Numbers, e: Expr) -> Result<Expr, NumberError>
        requires { Calls self.now.depth (E.pre self.now.exp) (E.post self.now.exp) (T.pre self.now.typ) (T.post self.now.typ) (B.pre self.now.block) (B.post self.now.block) }
        ensures { Gives view_expr (of_expr (view_expr e)) numbers.old result numbers.new }
    {
        let (outer, e) = self.inwards(numbers, e)?;
        self.outwards(numbers, outer, e)
    }
}
