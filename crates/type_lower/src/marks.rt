//! The marks of `T?`. They are counted by a loop, since there may be thousands of them.
ghost use Rattle.std.specs.Prelude.{◌≡◌, ◌≤◌, List};
ghost use Rattle.luau_tree.specs.View.{view_type};
ghost use Rattle.annotations.specs.Lowered.{Known, raw};
ghost use Rattle.type_lower.specs.Joined.{marked};
ghost use Rattle.type_lower.specs.Weight.{weight};

use luau_tree::{TypeKind, TypeSyntax};

/// How many marks stand behind a written type, and the type without them.
pub(crate) fn unmarked(typ: &TypeSyntax) -> (u64, &TypeSyntax)
    ensures same { (known : List Known) → marked result.0 (raw known (view_type result.1.now)) ≡ raw known (view_type typ.now) }
    ensures lighter { weight (view_type result.1.now) ≤ weight (view_type typ.now) }
{
    let mut inner = typ;
    let mut marks = 0;
    for _ in 0..u64::MAX {
        match &inner.kind {
            TypeKind::Optional(next) => inner = next.get(),
            _ => return (marks, inner),
        }
        marks += 1;
    }
    (marks, inner)
}
