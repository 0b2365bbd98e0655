ghost use Rattle.std.specs.Prelude.{◌≡◌, ◌≤◌, ◌++◌, All, length, map, IfOk, OnOk};
ghost use Rattle.luau_tree.specs.Position.{pos_at};
ghost use Rattle.luau_tree.specs.declared.position.TheConstants.{MAX_TEXT};
ghost use Rattle.report_rules.specs.Messages.{message as message_of};
ghost use Rattle.module_reports.specs.Meant.{kind_meant, report_meant};
ghost use Rattle.report_lines.specs.Lines.{line_kind, report_line};

use diag_text::{Line, LineKind};
use luau_tree::{Bytes, Cursor, Pos};
use module_reports::{Report, ReportKind, message};
use std::alloc::{AllocError, Global};

/// Puts the lines of a module's reports, in the order of these, at the end of `lines`. All places are found in one pass where the
/// reports stand in the order of their offsets. What a line says stands in `docs/PROGRAM.md`.
pub fn push_report_lines(
    alloc: Global,
    path: &[u8],
    text: &[u8],
    reports: &[Report],
    lines: &mut Vec<Line>,
) -> Result<(), AllocError>
    requires short { length text.now ≤ MAX_TEXT }
    requires within { All (λ report. report.at.start ≤ length text.now) reports.now }
    ensures { OnOk result (lines.new.items ≡ lines.old.items ++ map (report_line path.now text.now) (map report_meant reports.now)) }
{
    let mut cursor = Cursor::new(text);
    for report in reports {
        let at = cursor.place(report.at.start);
        lines.push(line_at(alloc, path, at, &report.kind)?)?;
    }
    Ok(())
}

// The line at a place.
fn line_at(alloc: Global, path: &[u8], at: Pos, kind: &ReportKind) -> Result<Line, AllocError>
    ensures { IfOk result (λ line. line ≡ record { path = path.now; at = at; kind = line_kind (kind_meant kind.now); message = message_of (kind_meant kind.now) }) }
{
    let path = Vec::from_slice(alloc, path)?;
    Ok(Line {
        path: Bytes::of(path),
        at,
        kind: kind_of(kind),
        message: message(alloc, kind)?,
    })
}

// The kind of line that tells a report.
fn kind_of(kind: &ReportKind) -> LineKind
    ensures { result ≡ line_kind (kind_meant kind.now) }
{
    match kind {
        ReportKind::Argument { .. } => LineKind::Argument,
        ReportKind::Missing { .. } => LineKind::Missing,
        ReportKind::Operand { .. } => LineKind::Operand,
        ReportKind::Value { .. } => LineKind::Value,
        ReportKind::Parameter { .. } => LineKind::Parameter,
    }
}
