use luau_tree::{ExprId, FnId};
use type_arena::TypeRef;

/// What was seen of an expression, or of a function's body.
#[derive(Clone, Copy, Debug)]
pub enum Seen {
    /// An expression, the type of its first value, and whether its place is live.
    Expr(ExprId, TypeRef, bool),
    /// A body, and whether the place of its literal or its statement is live.
    Body(FnId, bool),
}
