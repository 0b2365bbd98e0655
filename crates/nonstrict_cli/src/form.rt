//! Reads the form that is built so far: modules whose statements are calls of `math.abs`, each with one literal.
ghost use Rattle.std.specs.Prelude.{◌≡◌, ◌++◌, IfOk, OnOk, not, is_some, option_map};
ghost use Rattle.luau_tree.specs.declared.position.Span.{Span};
ghost use Rattle.luau_tree.specs.View.{view_block, view_expr, view_exprs, view_stat};
ghost use Rattle.rules_certain.specs.Literal.{is_number};
ghost use Rattle.nonstrict_cli.specs.Form as form;
ghost use Rattle.nonstrict_cli.specs.Form.{call_at, call_in, called, faults_in, offset_of};
ghost use Rattle.nonstrict_cli.specs.Seen.{reported_at};

use luau_tree::{Block, Expr, ExprKind, Stat, StatKind};
use std::alloc::{AllocError, Global};

/// Where the literal of a call stands, and whether the call fails.
#[derive(Clone, Copy, Debug)]
struct Argument {
    offset: u32,
    fails: bool,
}

/// Whether a literal fails as an argument of `math.abs`, if the expression is a literal.
#[tactic(auto, unfolding(luau_tree::specs::View::view_expr))]
fn literal_of(e: &Expr) -> Option<bool>
    ensures { result ≡ option_map (λ literal. not (is_number literal)) (form.literal_in (view_expr e.now)) }
{
    match &e.kind {
        ExprKind::Number(_) => Some(false),
        ExprKind::Nil | ExprKind::True | ExprKind::False | ExprKind::Str(_) => Some(true),
        _ => None,
    }
}

/// Whether an expression is this name.
#[tactic(auto, unfolding(luau_tree::specs::View::view_expr))]
fn is_name(name: &[u8], e: &Expr) -> bool
    ensures { result ≡ form.is_name name.now (view_expr e.now) }
{
    match &e.kind {
        ExprKind::Name(given) => given.as_slice() == name,
        _ => false,
    }
}

/// Whether an expression is `math.abs`.
#[tactic(auto, unfolding(luau_tree::specs::View::view_expr))]
fn is_abs(e: &Expr) -> bool
    ensures { result ≡ is_some (form.library_in (view_expr e.now)) }
{
    match &e.kind {
        ExprKind::Index { base, name } => is_name(b"math", base.get())
            && name.as_slice() == b"abs".as_slice(),
        _ => false,
    }
}

/// The one argument of a call.
fn sole(args: &[Expr]) -> Option<&Expr>
    ensures { option_map (λ e. view_expr e.now) result ≡ form.sole (view_exprs args.now) }
{
    match args {
        [] => None,
        [only] => Some(only),
        [_, _, ..] => None,
    }
}

/// The argument of a call with this callee and these arguments, if it is one of `math.abs` with one literal.
#[tactic(auto, unfolding(luau_tree::specs::View::view_expr))]
fn argument_among(callee: &Expr, args: &[Expr]) -> Option<Argument>
    ensures { (statement call : Span) → option_map reported_at result ≡ option_map offset_of (called statement call (view_expr callee.now) (view_exprs args.now)) }
{
    if !is_abs(callee) {
        return None;
    }
    let only = sole(args)?;
    let fails = literal_of(only)?;
    Some(Argument {
        offset: only.span.start,
        fails,
    })
}

/// The argument of an expression that is a call of `math.abs` with one literal.
#[tactic(auto, unfolding(luau_tree::specs::View::view_expr))]
fn argument_of(e: &Expr) -> Option<Argument>
    ensures { (statement : Span) → option_map reported_at result ≡ option_map offset_of (call_at statement (view_expr e.now)) }
{
    match &e.kind {
        ExprKind::Call { callee, args } => argument_among(callee.get(), args.as_slice()),
        _ => None,
    }
}

/// The argument of a statement that is a call of `math.abs` with one literal.
#[tactic(auto, unfolding(luau_tree::specs::View::view_stat))]
fn argument_in(stat: &Stat) -> Option<Argument>
    ensures { option_map reported_at result ≡ option_map offset_of (call_in (view_stat stat.now)) }
{
    match &stat.kind {
        StatKind::CallStat(call) => argument_of(call),
        _ => None,
    }
}

/// Adds where an argument is reported, if it is.
fn push_argument(found: &mut Vec<u32>, argument: Argument) -> Result<(), AllocError>
    ensures { OnOk result (found.new.items ≡ found.old.items ++ reported_at argument) }
{
    if argument.fails {
        found.push(argument.offset)?;
    }
    Ok(())
}

/// The offsets of the literals on which `math.abs` fails, in their order, or nothing where the module isn't of the
/// built form. Goes over it once.
pub(crate) fn read_faults(alloc: Global, block: &Block) -> Result<Option<Vec<u32>>, AllocError>
    ensures { IfOk result (λ found. option_map (λ offsets. offsets.items) found ≡ faults_in (view_block block.now)) }
{
    let mut found = Vec::new(alloc);
    for stat in block.stats.as_slice() {
        let Some(argument) = argument_in(stat) else {
            return Ok(None);
        };
        push_argument(&mut found, argument)?;
    }
    Ok(Some(found))
}
