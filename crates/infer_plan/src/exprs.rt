//! The forms of expressions.
ghost use Rattle.std.specs.Prelude.{◌≡◌, ◌≤◌, ◌+◌, ℕ, List, OnOk};
ghost use Rattle.std.specs.Option.{option_copied};
ghost use Rattle.luau_tree.specs.declared.position.Span.{Span};
ghost use Rattle.luau_tree.specs.declared.names.BinOp.TheVariants.{And, Or};
ghost use Rattle.luau_tree.specs.Tree as plain;
ghost use Rattle.luau_tree.specs.View.{view_body, view_expr, view_exprs};
ghost use Rattle.report_rules.specs.Rules.{Rules};
ghost use Rattle.rule_work.specs.Moves.{valued};
ghost use Rattle.rule_work.specs.Work.{Work};
ghost use Rattle.infer_plan.specs.Run.{act, run};
ghost use Rattle.infer_plan.specs.Steps.{element, key_name, with_kind};
ghost use Rattle.infer_plan.specs.Weights.{weight, expr_weight, kind_weight, list_weight, weights};

use crate::plan::plan;
use crate::task::{BodyTask, ExprTask, ListTask, NameTask, Step, Task};
use luau_tree::{BinOp, Body, Bytes, Expr, ExprKind, UnOp};
use std::alloc::AllocError;
use type_fields::Plain;

/// `(e)`, or `e :: T`.
pub(crate) fn inner<'t>(tasks: &mut Vec<Task<'t>>, e: &'t Expr) -> Result<(), AllocError>
    ensures paren { OnOk result ((rules : Rules) (id : ℕ) (work : Work) → run rules tasks.new.items work
        ≡ run rules tasks.old.items (with_kind rules id (plain.Paren (view_expr e.now)) work)) }
    ensures assert { OnOk result ((rules : Rules) (id : ℕ) (syntax : plain.TypeSyntax) (work : Work) → run rules tasks.new.items work
        ≡ run rules tasks.old.items (with_kind rules id (plain.Assert (view_expr e.now) syntax) work)) }
    ensures light { OnOk result (weights tasks.new.items ≤ weights tasks.old.items + kind_weight (plain.Paren (view_expr e.now))) }
{
    plan(
        tasks,
        &[
            Task::Step(Step::Save),
            Task::Expr(ExprTask::Whole, e),
            Task::Step(Step::Restore),
        ],
    )
}

/// `base.name`
pub(crate) fn index<'t>(
    tasks: &mut Vec<Task<'t>>,
    base: &'t Expr,
    name: &'t Bytes,
) -> Result<(), AllocError>
    ensures work { OnOk result ((rules : Rules) (id : ℕ) (work : Work) → run rules tasks.new.items work
        ≡ run rules tasks.old.items (with_kind rules id (plain.Index (view_expr base.now) name.now) work)) }
    ensures light { OnOk result (weights tasks.new.items ≤ weights tasks.old.items + kind_weight (plain.Index (view_expr base.now) name.now)) }
{
    plan(
        tasks,
        &[
            Task::Step(Step::Save),
            Task::Expr(ExprTask::Whole, base),
            Task::Step(Step::Restore),
            Task::Name(NameTask::Property, name),
        ],
    )
}

/// The name that a key is written as.
#[tactic(auto, unfolding(luau_tree::specs::View::view_expr))]
pub fn name_of_key(key: &Expr) -> Option<&Bytes>
    ensures { option_copied result ≡ key_name (view_expr key.now) }
{
    match &key.kind {
        ExprKind::Str(name) => Some(name),
        _ => None,
    }
}

/// The step behind a base and its key: what the field is, where the key is written as a name.
fn element_task<'t>(key: &'t Expr) -> Task<'t>
    ensures work { (rules : Rules) (work : Work) → act rules result work ≡ valued (element (key_name (view_expr key.now)) work.value) work }
    ensures light { weight result ≡ 1 }
{
    match name_of_key(key) {
        Some(name) => Task::Name(NameTask::Property, name),
        None => Task::Step(Step::Plain(Plain::Unknown)),
    }
}

/// `base[key]`
pub(crate) fn at<'t>(
    tasks: &mut Vec<Task<'t>>,
    base: &'t Expr,
    key: &'t Expr,
) -> Result<(), AllocError>
    ensures work { OnOk result ((rules : Rules) (id : ℕ) (work : Work) → run rules tasks.new.items work
        ≡ run rules tasks.old.items (with_kind rules id (plain.At (view_expr base.now) (view_expr key.now)) work)) }
    ensures light { OnOk result (weights tasks.new.items ≤ weights tasks.old.items + kind_weight (plain.At (view_expr base.now) (view_expr key.now))) }
{
    plan(
        tasks,
        &[
            Task::Step(Step::Save),
            Task::Expr(ExprTask::Whole, base),
            Task::Step(Step::Hold),
            Task::Expr(ExprTask::Whole, key),
            Task::Step(Step::Take),
            Task::Step(Step::Restore),
            element_task(key),
        ],
    )
}

/// `callee(args)`
pub(crate) fn call<'t>(
    tasks: &mut Vec<Task<'t>>,
    e: &'t Expr,
    callee: &'t Expr,
    args: &'t [Expr],
) -> Result<(), AllocError>
    ensures work { OnOk result ((rules : Rules) (id : ℕ) (span : Span) (work : Work) → view_expr e.now ≡ plain.the_expr id span (plain.Call (view_expr callee.now) (view_exprs args.now))
        → run rules tasks.new.items work ≡ run rules tasks.old.items (with_kind rules id (plain.Call (view_expr callee.now) (view_exprs args.now)) work)) }
    ensures light { OnOk result (weights tasks.new.items ≤ weights tasks.old.items + kind_weight (plain.Call (view_expr callee.now) (view_exprs args.now))) }
{
    plan(
        tasks,
        &[
            Task::Step(Step::Save),
            Task::Expr(ExprTask::Whole, callee),
            Task::Step(Step::Hold),
            Task::Exprs(ListTask::Values, args),
            Task::Step(Step::FirstOrNever),
            Task::Step(Step::Restore),
            Task::Expr(ExprTask::Call, e),
        ],
    )
}

/// `base:name(args)`
pub(crate) fn method<'t>(
    tasks: &mut Vec<Task<'t>>,
    base: &'t Expr,
    args: &'t [Expr],
) -> Result<(), AllocError>
    ensures work { OnOk result ((rules : Rules) (id : ℕ) (name : List ℕ) (span : Span) (work : Work) → run rules tasks.new.items work
        ≡ run rules tasks.old.items (with_kind rules id (plain.Method (view_expr base.now) name span (view_exprs args.now)) work)) }
    ensures light { OnOk result (weights tasks.new.items ≤ weights tasks.old.items + (4 + (expr_weight (view_expr base.now) + list_weight (view_exprs args.now)))) }
{
    plan(
        tasks,
        &[
            Task::Step(Step::Save),
            Task::Expr(ExprTask::Whole, base),
            Task::Exprs(ListTask::Values, args),
            Task::Step(Step::EndList),
            Task::Step(Step::Restore),
            Task::Step(Step::Plain(Plain::Unknown)),
        ],
    )
}

/// A unary operation.
pub(crate) fn unary<'t>(tasks: &mut Vec<Task<'t>>, op: UnOp, e: &'t Expr) -> Result<(), AllocError>
    ensures work { OnOk result ((rules : Rules) (id : ℕ) (work : Work) → run rules tasks.new.items work
        ≡ run rules tasks.old.items (with_kind rules id (plain.Unary op (view_expr e.now)) work)) }
    ensures light { OnOk result (weights tasks.new.items ≤ weights tasks.old.items + kind_weight (plain.Unary op (view_expr e.now))) }
{
    plan(
        tasks,
        &[
            Task::Step(Step::Save),
            Task::Expr(ExprTask::Whole, e),
            Task::Step(Step::Restore),
            Task::Step(Step::Unary(op)),
        ],
    )
}

/// An operation on two sides.
pub(crate) fn binary<'t>(
    tasks: &mut Vec<Task<'t>>,
    op: BinOp,
    left: &'t Expr,
    right: &'t Expr,
) -> Result<(), AllocError>
    ensures work { OnOk result ((rules : Rules) (id : ℕ) (work : Work) → run rules tasks.new.items work
        ≡ run rules tasks.old.items (with_kind rules id (plain.Binary op (view_expr left.now) (view_expr right.now)) work)) }
    ensures light { OnOk result (weights tasks.new.items ≤ weights tasks.old.items + kind_weight (plain.Binary op (view_expr left.now) (view_expr right.now))) }
{
    match op {
        BinOp::And => and(tasks, left, right),
        BinOp::Or => or(tasks, left, right),
        _ => plan(
            tasks,
            &[
                Task::Step(Step::Save),
                Task::Expr(ExprTask::Whole, left),
                Task::Step(Step::Hold),
                Task::Expr(ExprTask::Whole, right),
                Task::Step(Step::Binary(op)),
                Task::Step(Step::Restore),
            ],
        ),
    }
}

/// `left and right`
fn and<'t>(tasks: &mut Vec<Task<'t>>, left: &'t Expr, right: &'t Expr) -> Result<(), AllocError>
    ensures work { OnOk result ((rules : Rules) (id : ℕ) (work : Work) → run rules tasks.new.items work
        ≡ run rules tasks.old.items (with_kind rules id (plain.Binary And (view_expr left.now) (view_expr right.now)) work)) }
    ensures light { OnOk result (weights tasks.new.items ≤ weights tasks.old.items + kind_weight (plain.Binary And (view_expr left.now) (view_expr right.now))) }
{
    plan(
        tasks,
        &[
            Task::Step(Step::Save),
            Task::Expr(ExprTask::Whole, left),
            Task::Step(Step::Hold),
            Task::Step(Step::Plain(Plain::Falsy)),
            Task::Step(Step::Meet),
            Task::Step(Step::Hold),
            Task::Expr(ExprTask::WhenTrue, left),
            Task::Expr(ExprTask::Whole, right),
            Task::Step(Step::Union),
            Task::Step(Step::Restore),
        ],
    )
}

/// `left or right`
fn or<'t>(tasks: &mut Vec<Task<'t>>, left: &'t Expr, right: &'t Expr) -> Result<(), AllocError>
    ensures work { OnOk result ((rules : Rules) (id : ℕ) (work : Work) → run rules tasks.new.items work
        ≡ run rules tasks.old.items (with_kind rules id (plain.Binary Or (view_expr left.now) (view_expr right.now)) work)) }
    ensures light { OnOk result (weights tasks.new.items ≤ weights tasks.old.items + kind_weight (plain.Binary Or (view_expr left.now) (view_expr right.now))) }
{
    plan(
        tasks,
        &[
            Task::Step(Step::Save),
            Task::Expr(ExprTask::Whole, left),
            Task::Step(Step::Hold),
            Task::Step(Step::Plain(Plain::Truthy)),
            Task::Step(Step::Meet),
            Task::Step(Step::Hold),
            Task::Expr(ExprTask::WhenFalse, left),
            Task::Expr(ExprTask::Whole, right),
            Task::Step(Step::Union),
            Task::Step(Step::Restore),
        ],
    )
}

/// A function literal.
pub(crate) fn function<'t>(tasks: &mut Vec<Task<'t>>, body: &'t Body) -> Result<(), AllocError>
    ensures work { OnOk result ((rules : Rules) (id : ℕ) (work : Work) → run rules tasks.new.items work
        ≡ run rules tasks.old.items (with_kind rules id (plain.FunctionExpr (view_body body.now)) work)) }
    ensures light { OnOk result (weights tasks.new.items ≤ weights tasks.old.items + kind_weight (plain.FunctionExpr (view_body body.now))) }
{
    plan(
        tasks,
        &[
            Task::Body(BodyTask::Whole, body),
            Task::Body(BodyTask::Literal, body),
        ],
    )
}

/// An interpolated string.
pub(crate) fn interp<'t>(tasks: &mut Vec<Task<'t>>, parts: &'t [Expr]) -> Result<(), AllocError>
    ensures work { OnOk result ((rules : Rules) (id : ℕ) (texts : List (List ℕ)) (work : Work) → run rules tasks.new.items work
        ≡ run rules tasks.old.items (with_kind rules id (plain.Interp texts (view_exprs parts.now)) work)) }
    ensures light { OnOk result (weights tasks.new.items ≤ weights tasks.old.items + (4 + list_weight (view_exprs parts.now))) }
{
    plan(
        tasks,
        &[
            Task::Step(Step::Save),
            Task::Exprs(ListTask::Values, parts),
            Task::Step(Step::EndList),
            Task::Step(Step::Restore),
            Task::Step(Step::Plain(Plain::AnyString)),
        ],
    )
}
