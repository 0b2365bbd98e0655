//! What is still to be done on the way through a module.
use crate::numbers::Numbers;
use crate::within::Within;
use luau_tree::{
    Arm, Bind, Block, Body, Bytes, Choice, Expr, Gen, Item, Prop, Span, Stat, TypeSyntax,
};
use sqlite_items::Items;

/// A part of a module that is to be gone through, with what is around it; or what is to be done behind some.
#[derive(Drop)]
pub(crate) enum Task<'t> {
    /// Statements, whose locals stay in scope.
    Stats(Within, &'t [Stat]),
    /// Statements, and the end of their scope.
    Block(Within, &'t Block),
    /// The conditions of an `if`, each with its block.
    Arms(Within, &'t [Arm]),
    /// The block behind an `else`.
    Last(Within, &'t Option<Block>),
    /// A function.
    Body(Within, &'t Body),
    /// Its parameters, which stay in scope.
    Params(Within, &'t [Bind]),
    Expr(Within, &'t Expr),
    Exprs(Within, &'t [Expr]),
    MaybeExpr(Within, &'t Option<Expr>),
    Choices(Within, &'t [Choice]),
    Items(Within, &'t [Item]),
    Type(Within, &'t TypeSyntax),
    Types(Within, &'t [TypeSyntax]),
    MaybeType(Within, &'t Option<TypeSyntax>),
    Varargs(Within, &'t Option<Option<TypeSyntax>>),
    Gens(Within, &'t [Gen]),
    Props(Within, &'t [Prop]),
    /// The targets of an assignment, behind those that are locals.
    Targets(Within, &'t [Expr], Numbers),
    /// A target that was gone through as an expression, and those behind it.
    Aim(Within, &'t Expr, &'t [Expr], Numbers),
    /// The name of a function statement, which was gone through as an expression.
    Named(Within, &'t Expr, &'t Option<Bytes>),
    /// The declarations of a statement.
    Locals(Within, Locals<'t>),
    /// Declared locals come into scope, with their numbers.
    Enter(Within, &'t [Bind], Items<u32>),
    /// A declared local comes into scope, with its number.
    Entry(Within, &'t Bind, u32),
    /// The `until` of a `repeat`, whose body began with so many locals in scope and so many `continue`s.
    Until(Within, &'t Expr, usize, usize),
    /// The end of a `repeat`.
    Pass(Repeated),
    /// The end of a scope, which began with so many locals.
    Close(usize),
}

/// Declarations on the way.
#[derive(Drop)]
pub(crate) struct Locals<'t> {
    /// All of them.
    pub all: &'t [Bind],
    /// Those that are still to be declared.
    pub rest: &'t [Bind],
    /// The values at their positions.
    pub given: &'t [Expr],
    /// All values.
    pub values: &'t [Expr],
    /// The numbers of those that are declared.
    pub numbers: Items<u32>,
}

/// What is known of a `repeat` behind its `until`.
#[derive(Drop)]
pub(crate) struct Repeated {
    /// Its own `continue`s, each with how many locals are declared before it.
    pub own: Items<(Span, u32)>,
    /// How many uses stand before the `until`.
    pub uses: usize,
    /// How many locals are declared before the `until`.
    pub declared: usize,
    /// How many locals are in scope before its body.
    pub depth: usize,
}
