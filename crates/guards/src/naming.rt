//! Names in conditions: locals of which something may be said, and the builtin `type`.
ghost use Rattle.std.specs.Prelude.{◌≡◌, ◌&&◌, map, false, option_map, slice_get, codes};
ghost use Rattle.std.specs.Str.{bytes_eq};
ghost use Rattle.std.specs.Option.{option_map_or};
ghost use Rattle.luau_run.specs.ReadFolder.{local_of};
ghost use Rattle.luau_scope.specs.Laws.{AscendFrom};
ghost use Rattle.luau_tree.specs.View.{view_expr, view_exprs};
ghost use Rattle.module_reading.specs.Names.{Reads};
ghost use Rattle.report_rules.specs.Rules.{Rules};
ghost use Rattle.report_rules.specs.Guard.{firm_only, firm_local, is_type, kind_subject};
ghost use Rattle.guards.specs.Says.{subject_in};

use luau_scope::{Scoped, Use};
use luau_tree::{Bytes, Expr, ExprId, ExprKind, LocalId};

/// Whether a local is both assigned and captured.
fn is_loose(scoped: &Scoped, local: LocalId) -> bool
    ensures { result ≡ option_map_or (λ found. found.assigned) (slice_get scoped.now.locals local.0) false && option_map_or (λ found. found.captured) (slice_get scoped.now.locals local.0) false }
{
    match scoped.locals.as_slice().get(local.0 as usize) {
        Some(found) => found.assigned & found.captured,
        None => false,
    }
}

/// The local that a name stands for, if it isn't loose.
pub(crate) fn firm_named(scoped: &Scoped, id: ExprId) -> Option<LocalId>
    requires { AscendFrom 0 (map (λ u. u.0.0) scoped.now.uses) }
    ensures { (rules : Rules) → Reads scoped.now.uses scoped.now.locals rules → option_map (λ local. local.0) result ≡ firm_only rules (local_of (rules.reading.use_of id.0)) }
{
    match scoped.use_of(id) {
        Some(Use::Local(local)) => {
            let local = *local;
            if is_loose(scoped, local) {
                None
            } else {
                Some(local)
            }
        }
        _ => None,
    }
}

/// The local that isn't loose and that an expression is the bare name of.
pub(crate) fn firm_local(scoped: &Scoped, e: &Expr) -> Option<LocalId>
    requires { AscendFrom 0 (map (λ u. u.0.0) scoped.now.uses) }
    ensures { (rules : Rules) → Reads scoped.now.uses scoped.now.locals rules → option_map (λ local. local.0) result ≡ firm_local rules (view_expr e.now) }
{
    match &e.kind {
        ExprKind::Name(_) => firm_named(scoped, e.id),
        _ => None,
    }
}

/// Whether an expression is always the builtin `type`.
fn is_type(scoped: &Scoped, callee: &Expr) -> bool
    requires { AscendFrom 0 (map (λ u. u.0.0) scoped.now.uses) }
    ensures { (rules : Rules) → Reads scoped.now.uses scoped.now.locals rules → result ≡ is_type rules (view_expr callee.now) }
{
    match scoped.fixed_builtin(callee.id) {
        Some(path) => names_type(path),
        None => false,
    }
}

// Whether a path is that of the builtin `type`.
fn names_type(path: &Bytes) -> bool
    ensures { result ≡ bytes_eq (codes "type") path.now }
{
    b"type".as_slice() == path.as_slice()
}

/// The local x where an expression is `type(x)`.
pub(crate) fn kind_subject(scoped: &Scoped, e: &Expr) -> Option<LocalId>
    requires { AscendFrom 0 (map (λ u. u.0.0) scoped.now.uses) }
    ensures { (rules : Rules) → Reads scoped.now.uses scoped.now.locals rules → option_map (λ local. local.0) result ≡ kind_subject rules (view_expr e.now) }
{
    match &e.kind {
        ExprKind::Call { callee, args } => subject_among(scoped, callee.get(), args.as_slice()),
        _ => None,
    }
}

// The local x where a call with this callee and these arguments is `type(x)`.
fn subject_among(scoped: &Scoped, callee: &Expr, args: &[Expr]) -> Option<LocalId>
    requires { AscendFrom 0 (map (λ u. u.0.0) scoped.now.uses) }
    ensures { (rules : Rules) → Reads scoped.now.uses scoped.now.locals rules → option_map (λ local. local.0) result ≡ subject_in rules (view_expr callee.now) (view_exprs args.now) }
{
    match args {
        [only] => {
            if is_type(scoped, callee) {
                firm_local(scoped, only)
            } else {
                None
            }
        }
        _ => None,
    }
}
