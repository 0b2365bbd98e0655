//! The messages of reports.
ghost use Rattle.std.specs.Prelude.{◌≡◌, ◌++◌, suc, codes, decimal, IfOk, OnOk};
ghost use Rattle.report_rules.specs.Messages.{message as message_of, op_word, unary_word, binary_word};
ghost use Rattle.module_reports.specs.Meant.{kind_meant};

use crate::kind::ReportKind;
use itoa::Buffer;
use luau_tree::{BinOp, Bytes, Op, UnOp};
use std::alloc::{AllocError, Global};

/// The message of a report, as bytes of one line.
pub fn message(alloc: Global, kind: &ReportKind) -> Result<Bytes, AllocError>
    ensures { IfOk result (λ text. text ≡ message_of (kind_meant kind.now)) }
{
    let mut text = Vec::new(alloc);
    put_message(&mut text, kind)?;
    Ok(Bytes::of(text))
}

// The message of a report, behind what is there.
fn put_message(text: &mut Vec<u8>, kind: &ReportKind) -> Result<(), AllocError>
    ensures { OnOk result (text.new.items ≡ text.old.items ++ message_of (kind_meant kind.now)) }
{
    match kind {
        ReportKind::Argument { index, builtin } => put_numbered(
            text,
            *index,
            builtin.as_slice(),
            b" always fails",
        ),
        ReportKind::Missing { index, builtin } => put_numbered(
            text,
            *index,
            builtin.as_slice(),
            b" is missing",
        ),
        ReportKind::Operand { op } => put_named(
            text,
            b"operand of ",
            word_of(*op).as_bytes(),
            b" always fails",
        ),
        ReportKind::Value { name } => put_named(
            text,
            b"value of ",
            name.as_slice(),
            b" always fails",
        ),
        ReportKind::Parameter { name } => put_named(
            text,
            b"parameter ",
            name.as_slice(),
            b" always fails",
        ),
    }
}

// `argument N of PATH`, and an end.
fn put_numbered(text: &mut Vec<u8>, index: u32, path: &[u8], end: &[u8]) -> Result<(), AllocError>
    ensures { OnOk result (text.new.items ≡ text.old.items ++ (codes "argument " ++ (decimal (suc index) ++ (codes " of " ++ (path.now ++ end.now))))) }
{
    let mut digits = Buffer::new();
    let number = u64::from(index) + 1;
    text.extend_from_slice(b"argument ")?;
    text.extend_from_slice(digits.format(number).as_bytes())?;
    text.extend_from_slice(b" of ")?;
    text.extend_from_slice(path)?;
    text.extend_from_slice(end)?;
    Ok(())
}

// What is named, between a begin and an end.
fn put_named(text: &mut Vec<u8>, begin: &[u8], name: &[u8], end: &[u8]) -> Result<(), AllocError>
    ensures { OnOk result (text.new.items ≡ text.old.items ++ (begin.now ++ (name.now ++ end.now))) }
{
    text.extend_from_slice(begin)?;
    text.extend_from_slice(name)?;
    text.extend_from_slice(end)?;
    Ok(())
}

// What an operand is an operand of, in one word.
fn word_of(op: Op) -> &'static str
    ensures { result.now ≡ op_word op }
{
    match op {
        Op::Call => "call",
        Op::Index => "index",
        Op::Write => "write",
        Op::For => "for",
        Op::Iterate => "iterate",
        Op::Unary(op) => unary(op),
        Op::Binary(op) => binary(op),
    }
}

// A unary operator, as it is written.
fn unary(op: UnOp) -> &'static str
    ensures { result.now ≡ unary_word op }
{
    match op {
        UnOp::Minus => "-",
        UnOp::Not => "not",
        UnOp::Length => "#",
    }
}

// A binary operator, as it is written.
fn binary(op: BinOp) -> &'static str
    ensures { result.now ≡ binary_word op }
{
    match op {
        BinOp::Or => "or",
        BinOp::And => "and",
        BinOp::Less => "<",
        BinOp::Greater => ">",
        BinOp::LessEqual => "<=",
        BinOp::GreaterEqual => ">=",
        BinOp::NotEqual => "~=",
        BinOp::Equal => "==",
        BinOp::Concat => "..",
        BinOp::Add => "+",
        BinOp::Sub => "-",
        BinOp::Mul => "*",
        BinOp::Div => "/",
        BinOp::FloorDiv => "//",
        BinOp::Mod => "%",
        BinOp::Pow => "^",
    }
}
