//! What is still to be done on the way through a module.
use luau_tree::{BinOp, Bind, Block, Body, Bytes, Expr, Item, Stat, UnOp};
use module_facts::Target;
use type_fields::Plain;

/// A part of a module that is to be gone through, or a step behind some.
#[derive(Clone, Copy)]
pub enum Task<'t> {
    Step(Step),
    Expr(ExprTask, &'t Expr),
    Exprs(ListTask, &'t [Expr]),
    /// The tables whose named fields have the types of the innermost list.
    Row(&'t [Item]),
    Body(BodyTask, &'t Body),
    Stat(StatTask, &'t Stat),
    Block(&'t Block),
    /// A local gets the type at hand.
    Set(&'t Bind),
    Name(NameTask, &'t Bytes),
    Write(WriteTask, Target<'t>),
}

/// A step by what is at hand alone.
#[derive(Clone, Copy)]
pub enum Step {
    /// The type at hand is put aside, and is the last that was put aside.
    Hold,
    Take,
    /// What is known is put aside, and is what was put aside last.
    Save,
    Restore,
    /// Lists of types.
    BeginList,
    Add,
    EndList,
    FirstOrNever,
    UnionList,
    TakeFirst(bool),
    /// Ends of branches.
    BeginEnds,
    AddEnd,
    JoinEnds,
    /// No run goes on.
    End,
    /// The type at hand where a run may come, and never where none does.
    LiveOnly,
    /// The type at hand is that of the last expression whose type was still to come.
    Close,
    /// The values of some kinds.
    Plain(Plain),
    /// The type of a value that is held while parts with effects are evaluated, or without.
    Keep(bool),
    /// What is known after a part with effects, or without.
    After(bool),
    /// The last type that was put aside and the type at hand make one.
    Union,
    Meet,
    Binary(BinOp),
    Unary(UnOp),
}

/// What is to be done with an expression.
#[derive(Clone, Copy)]
pub enum ExprTask {
    Whole,
    /// Its form, but for its effects.
    Form,
    /// It is the target of a write.
    Target,
    /// It is seen, and its type is still to come.
    Open,
    /// It is a name, as a target or not.
    Name,
    TargetName,
    /// Whether it is a builtin's path.
    Path,
    /// It is a call whose parts are gone through.
    Call,
    /// It is a condition that came out true, or false.
    WhenTrue,
    WhenFalse,
}

/// What is to be done with expressions.
#[derive(Clone, Copy)]
pub enum ListTask {
    /// They are values: their types are the innermost list then.
    Values,
    /// They are the targets of an assignment.
    Targets,
}

/// What is to be done with a function's body.
#[derive(Clone, Copy)]
pub enum BodyTask {
    Whole,
    See,
    Enter,
    /// The type of its function is at hand then.
    Literal,
}

/// What is to be done with a statement.
#[derive(Clone, Copy)]
pub enum StatTask {
    Whole,
    /// It is a loop that is about to be entered.
    Head,
}

/// What is to be done with a name.
#[derive(Clone, Copy)]
pub enum NameTask {
    /// It is a string.
    Text,
    /// It is the name of a field.
    Property,
}

/// What is to be done with a target.
#[derive(Clone, Copy)]
pub enum WriteTask {
    /// The type at hand is written, alone.
    Write,
    /// A local gets the type at hand.
    Store,
    /// A write among others happened.
    Disturb,
}
