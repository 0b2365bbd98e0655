//! Equalities that say something of a local.
ghost use Rattle.std.specs.Prelude.{◌≡◌, map, option_map, Some};
ghost use Rattle.luau_scope.specs.Laws.{AscendFrom};
ghost use Rattle.luau_tree.specs.View.{view_expr, view_expr_kind};
ghost use Rattle.module_reading.specs.Names.{Reads};
ghost use Rattle.report_rules.specs.Rules.{Rules};
ghost use Rattle.report_rules.specs.Guard.{equals, exactly, kind_equals, kind_says, local_says, side_says, equality};
ghost use Rattle.type_fields.specs.Plain.{plain_term};
ghost use Rattle.guards.specs.Says.{says_of};

use crate::claims::Claim;
use crate::naming::{firm_local, kind_subject};
use luau_scope::Scoped;
use luau_tree::{Expr, ExprKind, LocalId};
use type_fields::Plain;

/// What a test says of a local, where it comes out true and where it comes out false.
#[derive(Clone, Copy)]
pub(crate) struct Test<'a> {
    pub local: LocalId,
    pub when_true: Claim<'a>,
    pub when_false: Claim<'a>,
}

// A test that says one thing where it is true and its complement where it is false.
fn exactly<'a>(local: LocalId, kind: Plain) -> Test<'a>
    ensures { says_of result ≡ exactly local.0 (plain_term kind) }
{
    Test {
        local,
        when_true: Claim::Is(kind),
        when_false: Claim::IsNot(kind),
    }
}

// `x == c`
fn equals<'a>(local: LocalId, kind: &'a ExprKind) -> Option<Test<'a>>
    ensures { option_map says_of result ≡ equals local.0 (view_expr_kind kind.entry.now) }
{
    match kind {
        ExprKind::Nil => Some(exactly(local, Plain::Nil)),
        ExprKind::True => Some(exactly(local, Plain::True)),
        ExprKind::False => Some(exactly(local, Plain::False)),
        ExprKind::Str(bytes) => Some(Test {
            local,
            when_true: Claim::Text(bytes.as_slice()),
            when_false: Claim::NotText(bytes.as_slice()),
        }),
        ExprKind::Number(_) => Some(Test {
            local,
            when_true: Claim::Is(Plain::Number),
            when_false: Claim::Is(Plain::Unknown),
        }),
        _ => None,
    }
}

// `type(x) == "k"`: what is of no kind may have any name but the first five.
fn kind_equals<'a>(local: LocalId, name: &[u8]) -> Test<'a>
    ensures { says_of result ≡ kind_equals local.0 name.now }
{
    if name == b"nil".as_slice() {
        exactly(local, Plain::Nil)
    } else if name == b"boolean".as_slice() {
        exactly(local, Plain::Boolean)
    } else if name == b"number".as_slice() {
        exactly(local, Plain::Number)
    } else if name == b"string".as_slice() {
        exactly(local, Plain::AnyString)
    } else if name == b"function".as_slice() {
        exactly(local, Plain::AnyFunction)
    } else if name == b"table".as_slice() {
        Test {
            local,
            when_true: Claim::TableOrOther,
            when_false: Claim::IsNot(Plain::AnyTable),
        }
    } else {
        Test {
            local,
            when_true: Claim::Is(Plain::Other),
            when_false: Claim::Is(Plain::Unknown),
        }
    }
}

// An equality of a local with a constant.
fn local_says<'a>(local: Option<LocalId>, kind: &'a ExprKind) -> Option<Test<'a>>
    ensures { option_map says_of result ≡ local_says (option_map (λ l. l.0) local) (view_expr_kind kind.entry.now) }
{
    match local {
        Some(local) => equals(local, kind),
        None => None,
    }
}

// An equality of a local's kind with a constant.
fn kind_says<'a>(local: Option<LocalId>, kind: &'a ExprKind) -> Option<Test<'a>>
    ensures { option_map says_of result ≡ kind_says (option_map (λ l. l.0) local) (view_expr_kind kind.entry.now) }
{
    match local {
        Some(local) => kind_is(local, kind),
        None => None,
    }
}

// `type(x) == c`
fn kind_is<'a>(local: LocalId, kind: &'a ExprKind) -> Option<Test<'a>>
    ensures { option_map says_of result ≡ kind_says (Some local.0) (view_expr_kind kind.entry.now) }
{
    match kind {
        ExprKind::Str(name) => Some(kind_equals(local, name.as_slice())),
        _ => None,
    }
}

// What an expression that is compared with one of a form says.
fn side_says<'a>(scoped: &Scoped, subject: &Expr, e: &'a Expr) -> Option<Test<'a>>
    requires { AscendFrom 0 (map (λ u. u.0.0) scoped.now.uses) }
    ensures { (rules : Rules) → Reads scoped.now.uses scoped.now.locals rules → option_map says_of result ≡ side_says rules (view_expr subject.now) (view_expr e.entry.now) }
{
    match local_says(firm_local(scoped, subject), &e.kind) {
        Some(test) => Some(test),
        None => kind_says(kind_subject(scoped, subject), &e.kind),
    }
}

/// What `left == right` says; either side may be the constant.
pub(crate) fn equality<'a>(scoped: &Scoped, left: &'a Expr, right: &'a Expr) -> Option<Test<'a>>
    requires { AscendFrom 0 (map (λ u. u.0.0) scoped.now.uses) }
    ensures { (rules : Rules) → Reads scoped.now.uses scoped.now.locals rules → option_map says_of result ≡ equality rules (view_expr left.entry.now) (view_expr right.entry.now) }
{
    match side_says(scoped, left, right) {
        Some(test) => Some(test),
        None => side_says(scoped, right, left),
    }
}
