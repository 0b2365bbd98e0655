//! The guard of a condition by those of its parts: who goes through a condition from its parts on makes each guard once.
ghost use Rattle.std.specs.Prelude.{◌≡◌, ℕ, [], List as Items, IsTrue, IfOk, OnErr, All};
ghost use Rattle.luau_tree.specs.Tree.{Expr, the_expr, Unary, Binary};
ghost use Rattle.luau_tree.specs.declared.names.BinOp.TheVariants.{And, Or};
ghost use Rattle.luau_tree.specs.declared.names.UnOp.TheVariants.{Not};
ghost use Rattle.luau_tree.specs.declared.position.Span.{Span};
ghost use Rattle.report_rules.specs.Rules.{Rules};
ghost use Rattle.type_arena.specs.Term.{Term};
ghost use Rattle.type_arena.specs.declared.arena.Arena.{Arena as Types};
ghost use Rattle.type_normal.specs.Adds.{Adds};
ghost use Rattle.type_normal.specs.Growing.{given_refs};
ghost use Rattle.guards.specs.Guards.{guard_refs, AreOwn, Means, IsGuard};
ghost use Rattle.guards.specs.Lists.{joined};

use crate::claims::plain;
use crate::guarding::{Guard, Joins, joins_of_and, joins_of_or, together, turned};
use std::alloc::{AllocError, Global};
use type_arena::Arena;
use type_fields::Plain;

/// The guard of `not e` by that of `e`. Takes no memory.
pub fn not_guard(guard: Guard) -> Guard
    ensures says { (arena : Types) (rules : Rules) (id : ℕ) (span : Span) (e : Expr)
        → IsGuard arena rules e guard → IsGuard arena rules (the_expr id span (Unary Not e)) result }
    ensures own { (arena : Types) → AreOwn arena guard → AreOwn arena result }
{
    turned(guard)
}

/// The guard of `left and right` by those of its sides. After want of memory the arena holds what it held and perhaps more nodes.
pub fn and_guard(
    alloc: Global,
    arena: &mut Arena<'_>,
    left: &Guard,
    right: &Guard,
) -> Result<Guard, AllocError>
    requires left { AreOwn arena.old left.now }
    requires right { AreOwn arena.old right.now }
    ensures says { IfOk result (λ g. (rules : Rules) (id : ℕ) (span : Span) (l r : Expr)
        → IsGuard arena.old rules l left.now → IsGuard arena.old rules r right.now
        → IsGuard arena.new rules (the_expr id span (Binary And l r)) g) }
    ensures own { IfOk result (λ g. AreOwn arena.new g) }
    ensures adds { Adds arena.old arena.new (given_refs []) [] }
{
    let guard = of_sides(alloc, arena, joins_of_and(), left, right)?;
    Ok(guard)
}

/// The guard of `left or right` by those of its sides. After want of memory the arena holds what it held and perhaps more nodes.
pub fn or_guard(
    alloc: Global,
    arena: &mut Arena<'_>,
    left: &Guard,
    right: &Guard,
) -> Result<Guard, AllocError>
    requires left { AreOwn arena.old left.now }
    requires right { AreOwn arena.old right.now }
    ensures says { IfOk result (λ g. (rules : Rules) (id : ℕ) (span : Span) (l r : Expr)
        → IsGuard arena.old rules l left.now → IsGuard arena.old rules r right.now
        → IsGuard arena.new rules (the_expr id span (Binary Or l r)) g) }
    ensures own { IfOk result (λ g. AreOwn arena.new g) }
    ensures adds { Adds arena.old arena.new (given_refs []) [] }
{
    let guard = of_sides(alloc, arena, joins_of_or(), left, right)?;
    Ok(guard)
}

// What two parts say together.
fn of_sides(
    alloc: Global,
    arena: &mut Arena<'_>,
    joins: Joins,
    left: &Guard,
    right: &Guard,
) -> Result<Guard, AllocError>
    requires left { AreOwn arena.old left.now }
    requires right { AreOwn arena.old right.now }
    ensures means { IfOk result (λ g. (t f u w : Items (ℕ × Term)) → Means arena.old left.now t f → Means arena.old right.now u w
        → Means arena.new g (joined joins.on_true t u) (joined joins.on_false f w)) }
    ensures own { IfOk result (λ g. AreOwn arena.new g) }
    ensures adds { Adds arena.old arena.new (given_refs []) [] }
{
    let unknown = plain(alloc, arena, Plain::Unknown)?;
    let guard = together(alloc, arena, unknown, joins, left, right)?;
    Ok(guard)
}
