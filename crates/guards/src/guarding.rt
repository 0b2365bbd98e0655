//! The guard of a condition.
ghost use Rattle.std.specs.Prelude.{◌≡◌, ℕ, [], ◌∷◌, map, not, true, false, None, IsTrue, IfOk, OnErr, All, option_map};
ghost use Rattle.luau_scope.specs.Laws.{AscendFrom};
ghost use Rattle.luau_scope.specs.Locals.{is_among};
ghost use Rattle.luau_tree.specs.View.{view_expr};
ghost use Rattle.luau_tree.specs.declared.names.BinOp.TheVariants.{And, Or};
ghost use Rattle.module_reading.specs.Names.{Reads};
ghost use Rattle.report_rules.specs.Rules.{Rules, loose};
ghost use Rattle.report_rules.specs.Guard.{guard, guarded, equality as equality_of};
ghost use Rattle.type_arena.specs.Arena.{store_of};
ghost use Rattle.type_arena.specs.Meaning.{term_of};
ghost use Rattle.type_arena.specs.Store.{has as has_node};
ghost use Rattle.type_normal.specs.Adds.{Adds};
ghost use Rattle.type_normal.specs.Growing.{given_refs, IsClean};
ghost use Rattle.guards.specs.Claims.{claim_type};
ghost use Rattle.guards.specs.Guards.{guard_refs, AreOwn, Means, IsGuard};
ghost use Rattle.guards.specs.Lists.{meant, type_in, has_local, joined as joined_entries};
ghost use Rattle.guards.specs.Made.{made, name_list, test_list, joins_of as joins_by, compared};
ghost use Rattle.guards.specs.Own.{IsUnknown};
ghost use Rattle.guards.specs.Says.{says_of};

use crate::claims::{Claim, plain, type_of};
use crate::joining::{Join, joined};
use crate::listing::Entry;
use crate::naming::firm_named;
use crate::tests_of_locals::{Test, equality};
use luau_scope::Scoped;
use luau_tree::{BinOp, Expr, ExprKind, LocalId, UnOp};
use std::alloc::{AllocError, Global};
use type_arena::{Arena, List, TypeRef};
use type_fields::Plain;

/// What a condition says of locals: their types where it comes out true, and where it comes out false. Both lists name the
/// same locals, in their order and each once. Of a local that isn't listed nothing is said.
#[derive(Debug, Drop)]
pub struct Guard {
    pub when_true: List<(LocalId, TypeRef)>,
    pub when_false: List<(LocalId, TypeRef)>,
}

/// How two parts are joined, where a condition is true and where it is false.
#[derive(Clone, Copy)]
pub(crate) struct Joins {
    pub on_true: Join,
    pub on_false: Join,
}

/// The guard of a condition. After want of memory the arena holds what it held and perhaps more nodes.
pub fn guard_of(
    alloc: Global,
    arena: &mut Arena<'_>,
    scoped: &Scoped,
    cond: &Expr,
) -> Result<Guard, AllocError>
    requires { AscendFrom 0 (map (λ u. u.0.0) scoped.now.uses) }

    // Of each local the lists give what the guard of the rules says, which is unknown where it isn't listed.
    ensures when_true { IfOk result (λ g. (rules : Rules) → Reads scoped.now.uses scoped.now.locals rules → (local : ℕ) → type_in (meant (term_of (store_of arena.new)) g.when_true) local ≡ guard rules (view_expr cond.now) true local) }
    ensures when_false { IfOk result (λ g. (rules : Rules) → Reads scoped.now.uses scoped.now.locals rules → (local : ℕ) → type_in (meant (term_of (store_of arena.new)) g.when_false) local ≡ guard rules (view_expr cond.now) false local) }

    // Both lists have the guarded locals, none of which is loose, in their order and each once.
    ensures true_locals { IfOk result (λ g. (rules : Rules) → Reads scoped.now.uses scoped.now.locals rules → (local : ℕ) → has_local g.when_true local ≡ is_among local (guarded rules (view_expr cond.now))) }
    ensures false_locals { IfOk result (λ g. (rules : Rules) → Reads scoped.now.uses scoped.now.locals rules → (local : ℕ) → has_local g.when_false local ≡ is_among local (guarded rules (view_expr cond.now))) }
    ensures firm { IfOk result (λ g. (rules : Rules) → Reads scoped.now.uses scoped.now.locals rules → (local : ℕ) → has_local g.when_true local ≡ true → loose rules local ≡ false) }
    ensures true_ascends { IfOk result (λ g. AscendFrom 0 (map (λ entry. entry.0.0) g.when_true)) }
    ensures false_ascends { IfOk result (λ g. AscendFrom 0 (map (λ entry. entry.0.0) g.when_false)) }

    // So it is a guard of the condition, as the laws on guards have it.
    ensures says { IfOk result (λ g. (rules : Rules) → Reads scoped.now.uses scoped.now.locals rules → IsGuard arena.new rules (view_expr cond.now) g) }
    ensures own { IfOk result (λ g. AreOwn arena.new g) }

    // The references are there. The arena only gets nodes, and each home that is reached from a reference is its own.
    ensures there { IfOk result (λ g. All (λ at. IsTrue (has_node (store_of arena.new) at)) (guard_refs g)) }
    ensures adds { IfOk result (λ g. Adds arena.old arena.new (given_refs []) (guard_refs g)) }
    ensures clean { IfOk result (λ g. All (IsClean arena.old arena.new (given_refs [])) (guard_refs g)) }
    ensures err { OnErr result (Adds arena.old arena.new (given_refs []) []) }
{
    let unknown = plain(alloc, arena, Plain::Unknown)?;
    let guard = by_form(alloc, arena, unknown, scoped, cond)?;
    Ok(guard)
}

// The guard of a condition by its form.
fn by_form(
    alloc: Global,
    arena: &mut Arena<'_>,
    unknown: TypeRef,
    scoped: &Scoped,
    cond: &Expr,
) -> Result<Guard, AllocError>
    requires sorted { AscendFrom 0 (map (λ u. u.0.0) scoped.now.uses) }
    requires nothing { IsUnknown arena.old unknown }
    ensures means { IfOk result (λ g. (rules : Rules) → Reads scoped.now.uses scoped.now.locals rules → Means arena.new g (made rules (view_expr cond.now) true) (made rules (view_expr cond.now) false)) }
    ensures own { IfOk result (λ g. AreOwn arena.new g) }
    ensures nothing { IsUnknown arena.new unknown }
    ensures adds { Adds arena.old arena.new (given_refs []) [] }
{
    match &cond.kind {
        ExprKind::Name(_) => {
            let named = firm_named(scoped, cond.id);
            by_name(alloc, arena, named)
        }
        ExprKind::Paren(inner) => by_form(alloc, arena, unknown, scoped, inner.get()),
        ExprKind::Unary { op, e } => match op {
            UnOp::Not => {
                let guard = by_form(alloc, arena, unknown, scoped, e.get())?;
                Ok(turned(guard))
            }
            _ => Ok(nothing(alloc)),
        },
        ExprKind::Binary { op, left, right } => match joins_of(*op) {
            Some(joins) => {
                let first = by_form(alloc, arena, unknown, scoped, left.get())?;
                let second = by_form(alloc, arena, unknown, scoped, right.get())?;
                together(alloc, arena, unknown, joins, &first, &second)
            }
            None => by_comparison(alloc, arena, scoped, *op, left.get(), right.get()),
        },
        _ => Ok(nothing(alloc)),
    }
}

// How an operator joins what its sides say, if it does.
fn joins_of(op: BinOp) -> Option<Joins>
    ensures { result ≡ joins_by op }
{
    match op {
        BinOp::And => Some(joins_of_and()),
        BinOp::Or => Some(joins_of_or()),
        _ => None,
    }
}

/// How `and` joins.
pub(crate) fn joins_of_and() -> Joins
    ensures { Some result ≡ joins_by And }
{
    Joins {
        on_true: Join::Both,
        on_false: Join::Either,
    }
}

/// How `or` joins.
pub(crate) fn joins_of_or() -> Joins
    ensures { Some result ≡ joins_by Or }
{
    Joins {
        on_true: Join::Either,
        on_false: Join::Both,
    }
}

// Nothing is said.
fn nothing(alloc: Global) -> Guard
    ensures when_true { result.when_true ≡ [] }
    ensures when_false { result.when_false ≡ [] }
{
    Guard {
        when_true: List::of(Vec::new(alloc)),
        when_false: List::of(Vec::new(alloc)),
    }
}

/// What is said where a condition comes out the other way.
pub(crate) fn turned(guard: Guard) -> Guard
    ensures when_true { result.when_true ≡ guard.when_false }
    ensures when_false { result.when_false ≡ guard.when_true }
{
    Guard {
        when_true: guard.when_false,
        when_false: guard.when_true,
    }
}

/// What two parts say together.
pub(crate) fn together(
    alloc: Global,
    arena: &mut Arena<'_>,
    unknown: TypeRef,
    joins: Joins,
    first: &Guard,
    second: &Guard,
) -> Result<Guard, AllocError>
    requires nothing { IsUnknown arena.old unknown }
    requires first { AreOwn arena.old first.now }
    requires second { AreOwn arena.old second.now }
    ensures means { IfOk result (λ g. Means arena.new g
        (joined_entries joins.on_true (meant (term_of (store_of arena.old)) first.now.when_true) (meant (term_of (store_of arena.old)) second.now.when_true))
        (joined_entries joins.on_false (meant (term_of (store_of arena.old)) first.now.when_false) (meant (term_of (store_of arena.old)) second.now.when_false))) }
    ensures own { IfOk result (λ g. AreOwn arena.new g) }
    ensures adds { Adds arena.old arena.new (given_refs []) [] }
{
    let left = first.when_true.as_slice();
    let right = second.when_true.as_slice();
    let when_true = joined(alloc, arena, unknown, joins.on_true, left, right)?;
    let left_false = first.when_false.as_slice();
    let right_false = second.when_false.as_slice();
    let when_false = joined(
        alloc,
        arena,
        unknown,
        joins.on_false,
        left_false,
        right_false,
    )?;
    Ok(Guard {
        when_true,
        when_false,
    })
}

// What a bare name says: it holds something else than nil and false, or one of them.
fn by_name(
    alloc: Global,
    arena: &mut Arena<'_>,
    named: Option<LocalId>,
) -> Result<Guard, AllocError>
    ensures means { IfOk result (λ g. Means arena.new g (name_list true (option_map (λ local. local.0) named)) (name_list false (option_map (λ local. local.0) named))) }
    ensures own { IfOk result (λ g. AreOwn arena.new g) }
    ensures adds { Adds arena.old arena.new (given_refs []) [] }
{
    match named {
        None => Ok(nothing(alloc)),
        Some(local) => {
            let truthy = Claim::Is(Plain::Truthy);
            let falsy = Claim::Is(Plain::Falsy);
            of_one(alloc, arena, local, &truthy, &falsy)
        }
    }
}

// What a comparison says that joins nothing.
fn by_comparison(
    alloc: Global,
    arena: &mut Arena<'_>,
    scoped: &Scoped,
    op: BinOp,
    left: &Expr,
    right: &Expr,
) -> Result<Guard, AllocError>
    requires { AscendFrom 0 (map (λ u. u.0.0) scoped.now.uses) }
    ensures means { IfOk result (λ g. (rules : Rules) → Reads scoped.now.uses scoped.now.locals rules → Means arena.new g
        (compared op true (equality_of rules (view_expr left.now) (view_expr right.now)))
        (compared op false (equality_of rules (view_expr left.now) (view_expr right.now)))) }
    ensures own { IfOk result (λ g. AreOwn arena.new g) }
    ensures adds { Adds arena.old arena.new (given_refs []) [] }
{
    match op {
        BinOp::Equal => by_test(alloc, arena, equality(scoped, left, right)),
        BinOp::NotEqual => {
            let guard = by_test(alloc, arena, equality(scoped, left, right))?;
            Ok(turned(guard))
        }
        _ => Ok(nothing(alloc)),
    }
}

// What a test says.
fn by_test(
    alloc: Global,
    arena: &mut Arena<'_>,
    test: Option<Test<'_>>,
) -> Result<Guard, AllocError>
    ensures means { IfOk result (λ g. Means arena.new g (test_list true (option_map says_of test.entry)) (test_list false (option_map says_of test.entry))) }
    ensures own { IfOk result (λ g. AreOwn arena.new g) }
    ensures adds { Adds arena.old arena.new (given_refs []) [] }
{
    match test {
        None => Ok(nothing(alloc)),
        Some(test) => of_one(alloc, arena, test.local, &test.when_true, &test.when_false),
    }
}

// What is said of one local.
fn of_one(
    alloc: Global,
    arena: &mut Arena<'_>,
    local: LocalId,
    when_true: &Claim<'_>,
    when_false: &Claim<'_>,
) -> Result<Guard, AllocError>
    ensures means { IfOk result (λ g. Means arena.new g ((local.0, claim_type when_true.now) ∷ []) ((local.0, claim_type when_false.now) ∷ [])) }
    ensures own { IfOk result (λ g. AreOwn arena.new g) }
    ensures adds { Adds arena.old arena.new (given_refs []) [] }
{
    let first = type_of(alloc, arena, when_true)?;
    let second = type_of(alloc, arena, when_false)?;
    let when_true = one_entry(alloc, local, first)?;
    let when_false = one_entry(alloc, local, second)?;
    Ok(Guard {
        when_true,
        when_false,
    })
}

// A list of one local.
fn one_entry(alloc: Global, local: LocalId, at: TypeRef) -> Result<List<Entry>, AllocError>
    ensures { IfOk result (λ entries. entries ≡ (local, at) ∷ []) }
{
    let mut entries = Vec::new(alloc);
    entries.push((local, at))?;
    Ok(List::of(entries))
}
