//! How the form around an expression checks it.
use luau_tree::{BinOp, Bind, Expr, UnOp};

/// A check of an expression.
#[derive(Clone, Copy)]
pub enum Check<'t> {
    Unchecked,
    /// It is called.
    Callee,
    /// It is the argument of a call at a position, which counts from 0.
    Argument {
        callee: &'t Expr,
        position: usize,
        expanding: bool,
    },
    /// It is the base of what is read, of what is written, or of both.
    Base,
    WrittenBase,
    ChangedBase,
    /// It is the operand of an operation, or a side of one beside another.
    Operand(UnOp),
    Side {
        op: BinOp,
        other: &'t Expr,
    },
    /// It is a bound of a numeric `for`, or what a generic one goes over.
    Bound,
    Iterated,
    /// It is the target of a compound, or its value.
    Old {
        op: BinOp,
        added: &'t Expr,
    },
    Added {
        op: BinOp,
        target: &'t Expr,
    },
    /// It is the value of a declared name, or of a target.
    ValueOf(&'t Bind),
    ValueOfTarget(&'t Expr),
}
