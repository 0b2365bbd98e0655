//! What is still to be done on the way through a module.
use crate::check::Check;
use luau_tree::{Bind, Block, Body, Bytes, Expr, Item, Stat};

/// A part of a module that is to be gone through, or a step behind some.
#[derive(Clone, Copy)]
pub enum Task<'t> {
    Ask(AskStep),
    Answer(AnswerStep),
    Behind(BehindStep),
    Loop(LoopStep),
    Check(CheckTask, Check<'t>, &'t Expr),
    Expr(ExprTask, &'t Expr),
    Base(BaseTask<'t>, &'t Expr),
    /// An item of a table constructor, whose context was found, stands before what is behind.
    Item(&'t Item),
    /// The context that was put aside is to check values.
    Values(&'t [Expr]),
    /// Names are declared.
    Binds(&'t [Bind]),
    Body(BodyTask, &'t Body),
    Stat(StatTask, &'t Stat),
    Block(&'t Block),
}

/// A step by the sets that are asked for.
#[derive(Clone, Copy)]
pub enum AskStep {
    /// No set is asked for, only whether an expression fails.
    Never,
    /// The same sets are asked for once more.
    Again,
    /// None and the falsy part of each set are asked for, or its truthy part.
    Falsy,
    Truthy,
    /// The sets are asked for no more.
    Drop,
}

/// A step by the contexts that an expression has for some sets.
#[derive(Clone, Copy)]
pub enum AnswerStep {
    /// Each set that is asked for has the context behind.
    Spread,
    /// Each has none.
    Unfailing,
    /// The context behind is that of the first set.
    Start,
    /// That of the first set stands before the context behind, which it leaves as it is.
    Join,
}

/// A step by the context behind.
#[derive(Clone, Copy)]
pub enum BehindStep {
    /// Nothing is behind.
    Clear,
    /// It is put aside as well, or put aside while nothing is behind.
    Keep,
    Begin,
    /// It is the last that was put aside, the last but one, or stays while the last is let go.
    Restore,
    Again,
    Drop,
}

/// A step by the loops and bodies around.
#[derive(Clone, Copy)]
pub enum LoopStep {
    /// A loop or a body is begun, from behind, or left.
    Enter,
    Apart,
    Leave,
    /// The context behind is that at `break`, or at `continue`.
    Break,
    Continue,
}

/// What is to be done with an expression that is checked.
#[derive(Clone, Copy)]
pub enum CheckTask {
    /// It is asked for the set that the check leaves.
    Ask,
    /// It stands before what is behind.
    Before,
    /// It is gone through for its reports.
    Found,
    /// It has its reports, and stands before what is behind.
    Passed,
    /// Its own place has its reports, as an expression or as a target.
    Own,
    There,
}

/// What is to be done with an expression.
#[derive(Clone, Copy)]
pub enum ExprTask {
    /// It is gone through for its contexts.
    Whole,
    /// It is a name.
    Name,
    /// Its context stands before what is behind.
    Met,
    /// It is the left side of `and` or of `or`.
    And,
    Or,
    /// It is the condition of an if-expression, or of an `if`.
    Choose,
    Decide,
    /// It is the target of a write, is written, or is among what is written beside values.
    Target,
    Write,
    KeepFor,
}

/// What is to be done with the base of a field or of an element.
#[derive(Clone, Copy)]
pub enum BaseTask<'t> {
    /// It is asked for the sets of a field that is read.
    Read(&'t Bytes),
    /// It is asked for the set of a method, which is called with arguments.
    Method(&'t Bytes, &'t [Expr]),
    /// It is asked for the sets of a field, or of an element, that a compound changes.
    Changed(&'t Bytes),
    ChangedElement,
    /// A field of it is written.
    Written(&'t Bytes),
}

/// What is to be done with a function's body.
#[derive(Clone, Copy)]
pub enum BodyTask {
    Whole,
    /// Its parameters are reported.
    Params,
}

/// What is to be done with a statement.
#[derive(Clone, Copy)]
pub enum StatTask {
    Whole,
    /// It is a loop, which keeps something of the context behind it.
    Keep,
}
