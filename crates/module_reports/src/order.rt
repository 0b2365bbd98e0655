//! The order of reports: by their offsets, their kinds, their messages and their places.
ghost use Rattle.std.specs.Prelude.{◌≡◌};
ghost use Rattle.luau_tree.specs.Sorted.{bytes_cmp};
ghost use Rattle.report_rules.specs.Printed.{binary_rank, kind_cmp, kind_name, kind_op, kind_position, kind_rank, op_rank, place_cmp, place_number, place_position, place_rank, unary_rank};
ghost use Rattle.module_reports.specs.Meant.{kind_meant};

use crate::kind::ReportKind;
use luau_tree::{BinOp, Op, Place, UnOp};
use std::cmp::Ordering;

// Where a kind stands among the kinds.
pub(crate) fn rank_of_kind(kind: &ReportKind) -> u8
    ensures { result ≡ kind_rank (kind_meant kind.now) }
{
    match kind {
        ReportKind::Argument { .. } => 0,
        ReportKind::Missing { .. } => 1,
        ReportKind::Operand { .. } => 2,
        ReportKind::Value { .. } => 3,
        ReportKind::Parameter { .. } => 4,
    }
}

// Expressions come before parameters.
fn rank_of_place(place: Place) -> u8
    ensures { result ≡ place_rank place }
{
    match place {
        Place::Expr(_) => 0,
        Place::Param { .. } => 1,
    }
}

fn number_of_place(place: Place) -> u32
    ensures { result ≡ place_number place }
{
    match place {
        Place::Expr(id) => id.0,
        Place::Param { function, .. } => function.0,
    }
}

fn position_of_place(place: Place) -> u32
    ensures { result ≡ place_position place }
{
    match place {
        Place::Expr(_) => 0,
        Place::Param { index, .. } => index,
    }
}

// Places by their numbers, and parameters of one body by their positions.
pub(crate) fn compare_places(a: Place, b: Place) -> Ordering
    ensures { result ≡ place_cmp a b }
{
    let ranks = rank_of_place(a).cmp(&rank_of_place(b));
    let numbers = number_of_place(a).cmp(&number_of_place(b));
    let positions = position_of_place(a).cmp(&position_of_place(b));
    ranks.then(numbers.then(positions))
}

fn position_of_kind(kind: &ReportKind) -> u32
    ensures { result ≡ kind_position (kind_meant kind.now) }
{
    match kind {
        ReportKind::Argument { index, .. } => *index,
        ReportKind::Missing { index, .. } => *index,
        _ => 0,
    }
}

fn name_of_kind(kind: &ReportKind) -> &[u8]
    ensures { result.now ≡ kind_name (kind_meant kind.now) }
{
    match kind {
        ReportKind::Argument { builtin, .. } => builtin.as_slice(),
        ReportKind::Missing { builtin, .. } => builtin.as_slice(),
        ReportKind::Value { name } => name.as_slice(),
        ReportKind::Parameter { name } => name.as_slice(),
        ReportKind::Operand { .. } => b"",
    }
}

fn rank_of_unary(op: UnOp) -> u8
    ensures { result ≡ unary_rank op }
{
    match op {
        UnOp::Minus => 5,
        UnOp::Not => 6,
        UnOp::Length => 7,
    }
}

fn rank_of_binary(op: BinOp) -> u8
    ensures { result ≡ binary_rank op }
{
    match op {
        BinOp::Or => 8,
        BinOp::And => 9,
        BinOp::Less => 10,
        BinOp::Greater => 11,
        BinOp::LessEqual => 12,
        BinOp::GreaterEqual => 13,
        BinOp::NotEqual => 14,
        BinOp::Equal => 15,
        BinOp::Concat => 16,
        BinOp::Add => 17,
        BinOp::Sub => 18,
        BinOp::Mul => 19,
        BinOp::Div => 20,
        BinOp::FloorDiv => 21,
        BinOp::Mod => 22,
        BinOp::Pow => 23,
    }
}

fn rank_of_op(op: Op) -> u8
    ensures { result ≡ op_rank op }
{
    match op {
        Op::Call => 0,
        Op::Index => 1,
        Op::Write => 2,
        Op::For => 3,
        Op::Iterate => 4,
        Op::Unary(op) => rank_of_unary(op),
        Op::Binary(op) => rank_of_binary(op),
    }
}

fn op_of_kind(kind: &ReportKind) -> u8
    ensures { result ≡ kind_op (kind_meant kind.now) }
{
    match kind {
        ReportKind::Operand { op } => rank_of_op(*op),
        _ => 0,
    }
}

// What tells reports of one kind apart: a position, a name, an operator.
pub(crate) fn compare_kinds(a: &ReportKind, b: &ReportKind) -> Ordering
    ensures { result ≡ kind_cmp (kind_meant a.now) (kind_meant b.now) }
{
    let positions = position_of_kind(a).cmp(&position_of_kind(b));
    let names = name_of_kind(a).cmp(name_of_kind(b));
    let ops = op_of_kind(a).cmp(&op_of_kind(b));
    positions.then(names.then(ops))
}
