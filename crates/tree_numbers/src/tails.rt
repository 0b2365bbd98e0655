//! Expressions that begin with one another, as `a` begins `a.b` and this begins `a.b(c)`. They are gone through by a loop,
//! since there may be thousands of them.
use luau_tree::{BinOp, Bytes, Expr, ExprId, Span, TypeSyntax};
use sqlite_items::Items;

/// What stands in an expression behind the one that it begins with.
#[derive(Drop)]
pub enum Tail {
    /// `.name`
    Index(Bytes),
    /// `[key]`
    At(Expr),
    /// `(args)`
    Call(Items<Expr>),
    /// `:name(args)`
    Method {
        name: Bytes,
        name_span: Span,
        args: Items<Expr>,
    },
    /// `op right`
    Binary {
        op: BinOp,
        right: Expr,
    },
    /// `:: T`
    Assert(TypeSyntax),
}

/// An expression with its number, without the one that it begins with.
#[derive(Drop)]
pub struct Outer {
    pub id: ExprId,
    pub span: Span,
    pub tail: Tail,
}

/// How an expression goes on behind its number.
#[derive(Drop)]
pub enum Opened {
    /// Its parts have their numbers.
    Done(Expr),
    /// It begins with an expression.
    Begun { first: Expr, tail: Tail },
}
