//! What kind a tree is of, where the grammar depends on it.
ghost use Rattle.std.specs.Prelude.{◌≡◌};
ghost use Rattle.luau_tree.specs.View.{view_expr, view_stat};
ghost use Rattle.luau_grammar.specs.Statements as statements;

use luau_tree::{Expr, ExprKind, Stat, StatKind};

/// Whether an expression can be assigned to: a name, or what ends in `.NAME` or `[exp]`.
#[tactic(auto, unfolding(luau_tree::specs::View::view_expr))]
pub fn is_variable(e: &Expr) -> bool
    ensures { result ≡ statements.is_variable (view_expr e.now) }
{
    matches!(
        &e.kind,
        ExprKind::Name(_) | ExprKind::Index { .. } | ExprKind::At { .. }
    )
}

/// Whether an expression ends in arguments.
#[tactic(auto, unfolding(luau_tree::specs::View::view_expr))]
pub fn is_call(e: &Expr) -> bool
    ensures { result ≡ statements.is_call (view_expr e.now) }
{
    matches!(&e.kind, ExprKind::Call { .. } | ExprKind::Method { .. })
}

/// Whether a block ends behind a statement.
#[tactic(auto, unfolding(luau_tree::specs::View::view_stat))]
pub fn is_last(stat: &Stat) -> bool
    ensures { result ≡ statements.is_last (view_stat stat.now) }
{
    matches!(
        &stat.kind,
        StatKind::Return(_) | StatKind::Break | StatKind::Continue
    )
}
