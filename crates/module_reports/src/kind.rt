use luau_tree::{Bytes, Op};
use type_arena::Label;

/// What a report says. Arguments count from 0 here, and from 1 in messages.
#[derive(Debug, Drop)]
pub enum ReportKind {
    /// An argument of a call of a builtin always fails.
    Argument { index: u32, builtin: Label },
    /// An argument that a call of a builtin needs is missing.
    Missing { index: u32, builtin: Label },
    /// An operand always fails.
    Operand { op: Op },
    /// The value of a local always fails where it is used.
    Value { name: Bytes },
    /// Whatever a parameter is given, the body always fails.
    Parameter { name: Bytes },
}
