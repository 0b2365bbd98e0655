//! Expressions, each made of its parts. Contracts see the plain tree.
ghost use Rattle.std.specs.Prelude.{◌≡◌, IfOk};
ghost use Rattle.luau_tree.specs.Tree as plain;
ghost use Rattle.luau_tree.specs.View.{view_body, view_choices, view_expr, view_exprs, view_items, view_type};

use crate::containers::{Bytes, List};
use crate::names::{BinOp, ExprId, UnOp};
use crate::position::Span;
use crate::tree::{Body, Choice, Expr, ExprKind, Item, TypeSyntax};
use sqlite_items::{Boxed, Items};
use std::alloc::{AllocError, Global};

/// `nil`
#[tactic(auto, using(crate::proofs::Views::expr_seen, crate::proofs::Views::nil_expr_seen))]
pub fn nil_expr(id: ExprId, span: Span) -> Expr
    ensures { view_expr result ≡ plain.the_expr id.0 span plain.NilExpr }
{
    let kind = ExprKind::Nil;
    Expr { id, span, kind }
}

/// `true`
#[tactic(auto, using(crate::proofs::Views::expr_seen, crate::proofs::Views::true_expr_seen))]
pub fn true_expr(id: ExprId, span: Span) -> Expr
    ensures { view_expr result ≡ plain.the_expr id.0 span plain.TrueExpr }
{
    let kind = ExprKind::True;
    Expr { id, span, kind }
}

/// `false`
#[tactic(auto, using(crate::proofs::Views::expr_seen, crate::proofs::Views::false_expr_seen))]
pub fn false_expr(id: ExprId, span: Span) -> Expr
    ensures { view_expr result ≡ plain.the_expr id.0 span plain.FalseExpr }
{
    let kind = ExprKind::False;
    Expr { id, span, kind }
}

/// A numeral, as it is written.
#[tactic(auto, using(crate::proofs::Views::expr_seen, crate::proofs::Views::number_expr_seen))]
pub fn number_expr(id: ExprId, span: Span, text: Bytes) -> Expr
    ensures { view_expr result ≡ plain.the_expr id.0 span (plain.NumberExpr text) }
{
    let kind = ExprKind::Number(text);
    Expr { id, span, kind }
}

/// A quoted or long string, as the bytes that it stands for.
#[tactic(auto, using(crate::proofs::Views::expr_seen, crate::proofs::Views::str_expr_seen))]
pub fn str_expr(id: ExprId, span: Span, bytes: Bytes) -> Expr
    ensures { view_expr result ≡ plain.the_expr id.0 span (plain.StrExpr bytes) }
{
    let kind = ExprKind::Str(bytes);
    Expr { id, span, kind }
}

/// `...`
#[tactic(auto, using(crate::proofs::Views::expr_seen, crate::proofs::Views::vararg_expr_seen))]
pub fn vararg_expr(id: ExprId, span: Span) -> Expr
    ensures { view_expr result ≡ plain.the_expr id.0 span plain.Vararg }
{
    let kind = ExprKind::Vararg;
    Expr { id, span, kind }
}

/// A function literal.
#[tactic(auto, using(crate::proofs::Views::expr_seen, crate::proofs::Views::function_expr_seen))]
pub fn function_expr(alloc: Global, id: ExprId, span: Span, body: Body) -> Result<Expr, AllocError>
    ensures { IfOk result (λ made. view_expr made
        ≡ plain.the_expr id.0 span (plain.FunctionExpr (view_body body))) }
{
    let body = Boxed::new(alloc, body)?;
    let kind = ExprKind::Function(body);
    Ok(Expr { id, span, kind })
}

/// A name.
#[tactic(auto, using(crate::proofs::Views::expr_seen, crate::proofs::Views::name_expr_seen))]
pub fn name_expr(id: ExprId, span: Span, name: Bytes) -> Expr
    ensures { view_expr result ≡ plain.the_expr id.0 span (plain.NameExpr name) }
{
    let kind = ExprKind::Name(name);
    Expr { id, span, kind }
}

/// `base.name`
#[tactic(auto, using(crate::proofs::Views::expr_seen, crate::proofs::Views::index_expr_seen))]
pub fn index_expr(
    alloc: Global,
    id: ExprId,
    span: Span,
    base: Expr,
    name: Bytes,
) -> Result<Expr, AllocError>
    ensures { IfOk result (λ made. view_expr made
        ≡ plain.the_expr id.0 span (plain.Index (view_expr base) name)) }
{
    let base = Boxed::new(alloc, base)?;
    let kind = ExprKind::Index { base, name };
    Ok(Expr { id, span, kind })
}

/// `base[key]`
#[tactic(auto, using(crate::proofs::Views::expr_seen, crate::proofs::Views::at_expr_seen))]
pub fn at_expr(
    alloc: Global,
    id: ExprId,
    span: Span,
    base: Expr,
    key: Expr,
) -> Result<Expr, AllocError>
    ensures { IfOk result (λ made. view_expr made
        ≡ plain.the_expr id.0 span (plain.At (view_expr base) (view_expr key))) }
{
    let base = Boxed::new(alloc, base)?;
    let key = Boxed::new(alloc, key)?;
    let kind = ExprKind::At { base, key };
    Ok(Expr { id, span, kind })
}

/// `callee(args)`, also with a table or a string in place of the parentheses.
#[tactic(auto, using(crate::proofs::Views::expr_seen, crate::proofs::Views::call_expr_seen))]
pub fn call_expr(
    alloc: Global,
    id: ExprId,
    span: Span,
    callee: Expr,
    args: Items<Expr>,
) -> Result<Expr, AllocError>
    ensures { IfOk result (λ made. view_expr made
        ≡ plain.the_expr id.0 span (plain.Call (view_expr callee) (view_exprs args))) }
{
    let callee = Boxed::new(alloc, callee)?;
    let kind = ExprKind::Call { callee, args };
    Ok(Expr { id, span, kind })
}

/// `base:name(args)`
#[tactic(auto, using(crate::proofs::Views::expr_seen, crate::proofs::Views::method_expr_seen))]
pub fn method_expr(
    alloc: Global,
    id: ExprId,
    span: Span,
    base: Expr,
    name: Bytes,
    name_span: Span,
    args: Items<Expr>,
) -> Result<Expr, AllocError>
    ensures { IfOk result (λ made. view_expr made
        ≡ plain.the_expr id.0 span (plain.Method (view_expr base) name name_span (view_exprs args))) }
{
    let base = Boxed::new(alloc, base)?;
    let kind = ExprKind::Method {
        base,
        name,
        name_span,
        args,
    };
    Ok(Expr { id, span, kind })
}

/// `(e)`
#[tactic(auto, using(crate::proofs::Views::expr_seen, crate::proofs::Views::paren_expr_seen))]
pub fn paren_expr(alloc: Global, id: ExprId, span: Span, e: Expr) -> Result<Expr, AllocError>
    ensures { IfOk result (λ made. view_expr made
        ≡ plain.the_expr id.0 span (plain.Paren (view_expr e))) }
{
    let e = Boxed::new(alloc, e)?;
    let kind = ExprKind::Paren(e);
    Ok(Expr { id, span, kind })
}

/// `-e`, `not e` or `#e`
#[tactic(auto, using(crate::proofs::Views::expr_seen, crate::proofs::Views::unary_expr_seen))]
pub fn unary_expr(
    alloc: Global,
    id: ExprId,
    span: Span,
    op: UnOp,
    e: Expr,
) -> Result<Expr, AllocError>
    ensures { IfOk result (λ made. view_expr made
        ≡ plain.the_expr id.0 span (plain.Unary op (view_expr e))) }
{
    let e = Boxed::new(alloc, e)?;
    let kind = ExprKind::Unary { op, e };
    Ok(Expr { id, span, kind })
}

/// `left op right`
#[tactic(auto, using(crate::proofs::Views::expr_seen, crate::proofs::Views::binary_expr_seen))]
pub fn binary_expr(
    alloc: Global,
    id: ExprId,
    span: Span,
    op: BinOp,
    left: Expr,
    right: Expr,
) -> Result<Expr, AllocError>
    ensures { IfOk result (λ made. view_expr made
        ≡ plain.the_expr id.0 span (plain.Binary op (view_expr left) (view_expr right))) }
{
    let left = Boxed::new(alloc, left)?;
    let right = Boxed::new(alloc, right)?;
    let kind = ExprKind::Binary { op, left, right };
    Ok(Expr { id, span, kind })
}

/// `if c then x elseif d then y else z`: at least one arm, and the value after `else`.
#[tactic(auto, using(crate::proofs::Views::expr_seen, crate::proofs::Views::if_else_expr_seen))]
pub fn if_else_expr(
    alloc: Global,
    id: ExprId,
    span: Span,
    arms: Items<Choice>,
    last: Expr,
) -> Result<Expr, AllocError>
    ensures { IfOk result (λ made. view_expr made
        ≡ plain.the_expr id.0 span (plain.IfElse (view_choices arms) (view_expr last))) }
{
    let last = Boxed::new(alloc, last)?;
    let kind = ExprKind::IfElse { arms, last };
    Ok(Expr { id, span, kind })
}

/// `{a = x, [k] = y, z}`
#[tactic(auto, using(crate::proofs::Views::expr_seen, crate::proofs::Views::table_expr_seen))]
pub fn table_expr(id: ExprId, span: Span, items: Items<Item>) -> Expr
    ensures { view_expr result ≡ plain.the_expr id.0 span (plain.TableExpr (view_items items)) }
{
    let kind = ExprKind::Table(items);
    Expr { id, span, kind }
}

/// An interpolated string: the texts around its parts, one more than there are parts.
#[tactic(auto, using(crate::proofs::Views::expr_seen, crate::proofs::Views::interp_expr_seen))]
pub fn interp_expr(id: ExprId, span: Span, texts: List<Bytes>, parts: Items<Expr>) -> Expr
    ensures { view_expr result ≡ plain.the_expr id.0 span (plain.Interp texts (view_exprs parts)) }
{
    let kind = ExprKind::Interp { texts, parts };
    Expr { id, span, kind }
}

/// `e :: T`
#[tactic(auto, using(crate::proofs::Views::expr_seen, crate::proofs::Views::assert_expr_seen))]
pub fn assert_expr(
    alloc: Global,
    id: ExprId,
    span: Span,
    e: Expr,
    typ: TypeSyntax,
) -> Result<Expr, AllocError>
    ensures { IfOk result (λ made. view_expr made
        ≡ plain.the_expr id.0 span (plain.Assert (view_expr e) (view_type typ))) }
{
    let e = Boxed::new(alloc, e)?;
    let typ = Boxed::new(alloc, typ)?;
    let kind = ExprKind::Assert { e, typ };
    Ok(Expr { id, span, kind })
}
