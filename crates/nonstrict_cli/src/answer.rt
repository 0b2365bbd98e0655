//! Everything up to the first write.
ghost use Rattle.std.specs.Prelude.{◌≡◌, ◌≢◌, ◌↔◌, None, Some, IfOk, IfSome, flat_map, map, string_bytes};
ghost use Rattle.std.specs.List.{list_any};
ghost use Rattle.diag_text.specs.Line.{text_of};
ghost use Rattle.outside.specs.Cause.{Rose};
ghost use Rattle.outside.specs.Written.{Appends};
ghost use Rattle.nonstrict_cli.specs.Asked.{asked};
ghost use Rattle.nonstrict_cli.specs.Command.{command};
ghost use Rattle.nonstrict_cli.specs.Output.{is_refusal, status_of};
ghost use Rattle.nonstrict_cli.specs.Status.{IsChecked};
ghost use Rattle.nonstrict_cli.specs.declared.status.Limit.{Limit};
ghost use Rattle.nonstrict_cli.specs.Answer.{Answers, StopsWith};
ghost use Rattle.nonstrict_cli.specs.Written.{AppendsFront};

use crate::Status;
use crate::folder::folder_lines;
use crate::stop::Stop;
use crate::words::folder_of;
use diag_text::{Line, LineKind, push_text_line};
use outside::Tree;
use std::alloc::{AllocError, Global};

/// What a run writes, and how it ends when that is written.
#[derive(Debug, Drop)]
pub(crate) struct Answer {
    pub text: Vec<u8>,
    pub status: Status,
}

fn is_refusal(kind: LineKind) -> bool
    ensures { result ≡ is_refusal kind }
{
    match kind {
        LineKind::Refused | LineKind::Skipped => true,
        _ => false,
    }
}

/// Whether some line says that a file isn't checked.
fn has_refusal(lines: &[Line]) -> bool
    ensures { result ≡ list_any (λ line. is_refusal line.kind) lines.now }
{
    lines.iter().any(|line| is_refusal(line.kind))
}

/// Refused where a file isn't checked, else Clean where there is no line, else Reports.
fn status_of(lines: &[Line]) -> Status
    ensures status { result ≡ status_of lines.now }
    ensures checked { IsChecked result }
{
    if has_refusal(lines) {
        return Status::Refused;
    }
    if lines.is_empty() {
        return Status::Clean;
    }
    Status::Reports
}

/// The text of some lines.
fn text_of(alloc: Global, lines: &[Line]) -> Result<Vec<u8>, AllocError>
    ensures { IfOk result (λ text. text.items ≡ flat_map text_of lines.now) }
{
    let mut text = Vec::new(alloc);
    for line in lines {
        push_text_line(&mut text, line)?;
    }
    Ok(text)
}

/// What a run with these words writes, or why it writes nothing.
pub(crate) fn make_answer<T: Tree>(
    alloc: Global,
    words: &[String],
    tree: &mut T,
) -> Result<Answer, Stop>
    ensures usage { (result ≡ Err Stop.Usage) ↔ (command (map string_bytes words.now) ≡ None) }
    ensures answer { IfOk result (λ answer. IfSome (T.contents tree.old)
        (Answers (map string_bytes words.now) answer)) }
    ensures checked { IfOk result (λ answer. IsChecked answer.status) }
    ensures too_large { (limit : Limit) → result ≡ Err (Stop.TooLarge limit) →
        IfSome (T.contents tree.old) (StopsWith (map string_bytes words.now) limit) }
    ensures asked { IfSome (T.contents tree.old) (λ told.
        AppendsFront (T.asked tree.old) (T.asked tree.new)
        (asked (map string_bytes words.now) told)) }
    ensures asked_all { result ≢ Err Stop.ReadFault → result ≢ Err Stop.NoMemory →
        IfSome (T.contents tree.old) (λ told.
        Appends (T.asked tree.old) (T.asked tree.new)
        (asked (map string_bytes words.now) told)) }
    ensures read_fault { result ≡ Err Stop.ReadFault →
        Rose (T.faults tree.old) (T.faults tree.new) }
    ensures quiet { result ≢ Err Stop.ReadFault → T.faults tree.new ≡ T.faults tree.old }
    ensures same { T.contents tree.new ≡ T.contents tree.old }
{
    let Some(folder) = folder_of(words) else {
        return Err(Stop::Usage);
    };
    let lines = folder_lines(alloc, tree, folder)?;
    Ok(Answer {
        text: text_of(alloc, &lines)?,
        status: status_of(&lines),
    })
}
