/// The number of an expression in its module.
#[derive(Clone, Copy, Debug, PartialEq, Eq, PartialOrd, Ord)]
pub struct ExprId(pub u32);

/// The number of a function's body in its module.
#[derive(Clone, Copy, Debug, PartialEq, Eq, PartialOrd, Ord)]
pub struct FnId(pub u32);

/// The number of a local in its module: its position among all locals in the order of the text.
#[derive(Clone, Copy, Debug, PartialEq, Eq, PartialOrd, Ord)]
pub struct LocalId(pub u32);

/// A place that a run can reach: an expression, or a parameter of a function's body, counted from 0.
#[derive(Clone, Copy, Debug, PartialEq, Eq, PartialOrd, Ord)]
pub enum Place {
    Expr(ExprId),
    Param { function: FnId, index: u32 },
}

/// A unary operator: `-`, `not`, `#`.
#[derive(Clone, Copy, Debug, PartialEq, Eq)]
pub enum UnOp {
    Minus,
    Not,
    Length,
}

/// A binary operator: `or and < > <= >= ~= == .. + - * / // % ^`.
#[derive(Clone, Copy, Debug, PartialEq, Eq)]
pub enum BinOp {
    Or,
    And,
    Less,
    Greater,
    LessEqual,
    GreaterEqual,
    NotEqual,
    Equal,
    Concat,
    Add,
    Sub,
    Mul,
    Div,
    FloorDiv,
    Mod,
    Pow,
}

/// What an operand is an operand of.
#[derive(Clone, Copy, Debug, PartialEq, Eq)]
pub enum Op {
    /// It is called.
    Call,
    /// It is indexed.
    Index,
    /// One of its fields is written.
    Write,
    /// It is a bound of a numeric `for`.
    For,
    /// A `for .. in` goes over it.
    Iterate,
    Unary(UnOp),
    Binary(BinOp),
}

/// How a property of a table type may be used: both ways, or only as `read` or `write` says.
#[derive(Clone, Copy, Debug, PartialEq, Eq)]
pub enum Access {
    Both,
    Read,
    Write,
}
