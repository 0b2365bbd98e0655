//! Statements, each made of its parts. Contracts see the plain tree.
ghost use Rattle.std.specs.Prelude.{◌≡◌};
ghost use Rattle.luau_tree.specs.Tree as plain;
ghost use Rattle.luau_tree.specs.View.{view_arms, view_bind, view_binds, view_block, view_body, view_expr, view_exprs, view_gens, view_maybe_block, view_maybe_expr, view_stat, view_type};

use crate::containers::Bytes;
use crate::names::BinOp;
use crate::position::Span;
use crate::tree::{Arm, Bind, Block, Body, Expr, Gen, Stat, StatKind, TypeSyntax};
use sqlite_items::Items;

/// `a, b.c = x, y`
#[tactic(auto, using(crate::proofs::Views::stat_seen, crate::proofs::Views::assign_stat_seen))]
pub fn assign_stat(span: Span, targets: Items<Expr>, values: Items<Expr>) -> Stat
    ensures { view_stat result
        ≡ plain.the_stat span (plain.Assign (view_exprs targets) (view_exprs values)) }
{
    let kind = StatKind::Assign { targets, values };
    Stat { span, kind }
}

/// `a += x`
#[tactic(auto, using(crate::proofs::Views::stat_seen, crate::proofs::Views::compound_stat_seen))]
pub fn compound_stat(span: Span, target: Expr, op: BinOp, value: Expr) -> Stat
    ensures { view_stat result
        ≡ plain.the_stat span (plain.Compound (view_expr target) op (view_expr value)) }
{
    let kind = StatKind::Compound { target, op, value };
    Stat { span, kind }
}

/// An expression that is a call or a method call.
#[tactic(auto, using(crate::proofs::Views::stat_seen, crate::proofs::Views::call_stat_seen))]
pub fn call_stat(span: Span, call: Expr) -> Stat
    ensures { view_stat result ≡ plain.the_stat span (plain.CallStat (view_expr call)) }
{
    let kind = StatKind::CallStat(call);
    Stat { span, kind }
}

/// `do .. end`
#[tactic(auto, using(crate::proofs::Views::stat_seen, crate::proofs::Views::do_stat_seen))]
pub fn do_stat(span: Span, body: Block) -> Stat
    ensures { view_stat result ≡ plain.the_stat span (plain.Do (view_block body)) }
{
    let kind = StatKind::Do(body);
    Stat { span, kind }
}

/// `while c do .. end`
#[tactic(auto, using(crate::proofs::Views::stat_seen, crate::proofs::Views::while_stat_seen))]
pub fn while_stat(span: Span, cond: Expr, body: Block) -> Stat
    ensures { view_stat result
        ≡ plain.the_stat span (plain.While (view_expr cond) (view_block body)) }
{
    let kind = StatKind::While { cond, body };
    Stat { span, kind }
}

/// `repeat .. until c`
#[tactic(auto, using(crate::proofs::Views::stat_seen, crate::proofs::Views::repeat_stat_seen))]
pub fn repeat_stat(span: Span, body: Block, cond: Expr) -> Stat
    ensures { view_stat result
        ≡ plain.the_stat span (plain.Repeat (view_block body) (view_expr cond)) }
{
    let kind = StatKind::Repeat { body, cond };
    Stat { span, kind }
}

/// `if .. then .. elseif .. then .. else .. end`: at least one arm, and the block after `else`.
#[tactic(auto, using(crate::proofs::Views::stat_seen, crate::proofs::Views::if_stat_seen))]
pub fn if_stat(span: Span, arms: Items<Arm>, last: Option<Block>) -> Stat
    ensures { view_stat result
        ≡ plain.the_stat span (plain.If (view_arms arms) (view_maybe_block last)) }
{
    let kind = StatKind::If { arms, last };
    Stat { span, kind }
}

/// `for i = a, b, c do .. end`
#[tactic(auto, using(crate::proofs::Views::stat_seen, crate::proofs::Views::num_for_stat_seen))]
pub fn num_for_stat(
    span: Span,
    bind: Bind,
    from: Expr,
    to: Expr,
    step: Option<Expr>,
    body: Block,
) -> Stat
    ensures { view_stat result
        ≡ plain.the_stat span (plain.NumFor (view_bind bind) (view_expr from) (view_expr to) (view_maybe_expr step) (view_block body)) }
{
    let kind = StatKind::NumFor {
        bind,
        from,
        to,
        step,
        body,
    };
    Stat { span, kind }
}

/// `for a, b in x, y do .. end`
#[tactic(auto, using(crate::proofs::Views::stat_seen, crate::proofs::Views::gen_for_stat_seen))]
pub fn gen_for_stat(span: Span, binds: Items<Bind>, values: Items<Expr>, body: Block) -> Stat
    ensures { view_stat result
        ≡ plain.the_stat span (plain.GenFor (view_binds binds) (view_exprs values) (view_block body)) }
{
    let kind = StatKind::GenFor {
        binds,
        values,
        body,
    };
    Stat { span, kind }
}

/// `function a.b.c:m() .. end`
#[tactic(auto, using(crate::proofs::Views::stat_seen, crate::proofs::Views::function_stat_seen))]
pub fn function_stat(span: Span, path: Expr, method: Option<Bytes>, body: Body) -> Stat
    ensures { view_stat result
        ≡ plain.the_stat span (plain.FunctionStat (view_expr path) method (view_body body)) }
{
    let kind = StatKind::Function { path, method, body };
    Stat { span, kind }
}

/// `local function f() .. end`
#[tactic(auto, using(crate::proofs::Views::stat_seen, crate::proofs::Views::local_function_stat_seen))]
pub fn local_function_stat(span: Span, name: Bind, body: Body) -> Stat
    ensures { view_stat result
        ≡ plain.the_stat span (plain.LocalFunction (view_bind name) (view_body body)) }
{
    let kind = StatKind::LocalFunction { name, body };
    Stat { span, kind }
}

/// `local a, b = x, y`
#[tactic(auto, using(crate::proofs::Views::stat_seen, crate::proofs::Views::local_stat_seen))]
pub fn local_stat(span: Span, binds: Items<Bind>, values: Items<Expr>) -> Stat
    ensures { view_stat result
        ≡ plain.the_stat span (plain.Local (view_binds binds) (view_exprs values)) }
{
    let kind = StatKind::Local { binds, values };
    Stat { span, kind }
}

/// `export type T<U> = V`
#[tactic(auto, using(crate::proofs::Views::stat_seen, crate::proofs::Views::type_alias_stat_seen))]
pub fn type_alias_stat(
    span: Span,
    exported: bool,
    name: Bytes,
    generics: Items<Gen>,
    typ: TypeSyntax,
) -> Stat
    ensures { view_stat result
        ≡ plain.the_stat span (plain.TypeAlias exported name (view_gens generics) (view_type typ)) }
{
    let kind = StatKind::TypeAlias {
        exported,
        name,
        generics,
        typ,
    };
    Stat { span, kind }
}

/// `export type function f() .. end`
#[tactic(auto, using(crate::proofs::Views::stat_seen, crate::proofs::Views::type_function_stat_seen))]
pub fn type_function_stat(span: Span, exported: bool, name: Bytes, body: Body) -> Stat
    ensures { view_stat result
        ≡ plain.the_stat span (plain.TypeFunction exported name (view_body body)) }
{
    let kind = StatKind::TypeFunction {
        exported,
        name,
        body,
    };
    Stat { span, kind }
}

/// `return x, y`
#[tactic(auto, using(crate::proofs::Views::stat_seen, crate::proofs::Views::return_stat_seen))]
pub fn return_stat(span: Span, values: Items<Expr>) -> Stat
    ensures { view_stat result ≡ plain.the_stat span (plain.Return (view_exprs values)) }
{
    let kind = StatKind::Return(values);
    Stat { span, kind }
}

/// `break`
#[tactic(auto, using(crate::proofs::Views::stat_seen, crate::proofs::Views::break_stat_seen))]
pub fn break_stat(span: Span) -> Stat
    ensures { view_stat result ≡ plain.the_stat span plain.Break }
{
    let kind = StatKind::Break;
    Stat { span, kind }
}

/// `continue`
#[tactic(auto, using(crate::proofs::Views::stat_seen, crate::proofs::Views::continue_stat_seen))]
pub fn continue_stat(span: Span) -> Stat
    ensures { view_stat result ≡ plain.the_stat span plain.Continue }
{
    let kind = StatKind::Continue;
    Stat { span, kind }
}
