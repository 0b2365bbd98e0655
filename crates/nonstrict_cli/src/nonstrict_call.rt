//! The top call.
ghost use Rattle.std.specs.Prelude.{◌≡◌, ◌≢◌, ◌<◌, ◌↔◌, None, IfSome, map, string_bytes};
ghost use Rattle.outside.specs.Cause.{Rose};
ghost use Rattle.outside.specs.Written.{Appends};
ghost use Rattle.nonstrict_cli.specs.Asked.{asked};
ghost use Rattle.nonstrict_cli.specs.Checked.{checked};
ghost use Rattle.nonstrict_cli.specs.Command.{command};
ghost use Rattle.nonstrict_cli.specs.Ending.{EndsWell};
ghost use Rattle.nonstrict_cli.specs.Output.{output};
ghost use Rattle.nonstrict_cli.specs.Reports.{WritesCertainReports};
ghost use Rattle.nonstrict_cli.specs.Status.{IsAnswer, IsSilent};
ghost use Rattle.nonstrict_cli.specs.Written.{AppendsFront, AppendsPart, GivesRests};

use crate::Status;
use crate::answer::make_answer;
use crate::laws::lines_tell_certain_reports;
use crate::write::write_whole;
use outside::{Sink, Tree};
use std::alloc::Global;

/// Checks the folder that the words name, writes the lines, and says how the run ended. The words
/// are those after the program's name.
///
/// What is written, and the status, are those of `Output` in `docs/PROGRAM.md`. All text is built
/// before the first write, and no memory is taken from then on.
pub fn nonstrict<T: Tree, S: Sink>(
    alloc: Global,
    words: &[String],
    tree: &mut T,
    sink: &mut S,
) -> Status
    // Usage comes exactly where the words are no command.
    ensures usage { (result ≡ Status.Usage) ↔ (command (map string_bytes words.now) ≡ None) }

    // An answer is that of the output, and the output is appended whole.
    ensures status { IsAnswer result → IfSome (T.contents tree.old) (λ contents.
        result ≡ (output (map string_bytes words.now) contents).status) }
    ensures written { IsAnswer result → IfSome (T.contents tree.old) (λ contents.
        Appends (S.written sink.old) (S.written sink.new)
        (output (map string_bytes words.now) contents).bytes) }

    // So where neither the folder nor the output fails, the output is appended whole with its
    // status, or memory ran out and nothing is written.
    ensures complete { IfSome (T.contents tree.old) (λ contents.
        ¬ (Rose (T.faults tree.old) (T.faults tree.new)) →
        ¬ (Rose (S.faults sink.old) (S.faults sink.new)) →
        EndsWell S.written sink.old sink.new result
        (output (map string_bytes words.now) contents)) }

    // The headline: what is written is the text of lines, each that says what fails is that of a
    // report of a checked module, each report has its line, and the reports are certain.
    ensures certain { IsAnswer result → IfSome (T.contents tree.old) (λ contents.
        WritesCertainReports (S.written sink.old) (S.written sink.new)
        (checked (map string_bytes words.now) contents)) }

    // The other statuses have a cause. Want of memory has none, and comes before the first write.
    ensures read_fault { result ≡ Status.ReadFault →
        Rose (T.faults tree.old) (T.faults tree.new) }
    ensures read_fault_always { T.faults tree.old < T.faults tree.new →
        result ≡ Status.ReadFault }
    ensures write_fault { result ≡ Status.WriteFault →
        Rose (S.faults sink.old) (S.faults sink.new) }
    ensures write_fault_always { S.faults sink.old < S.faults sink.new →
        result ≡ Status.WriteFault }
    ensures silent { IsSilent result → sink.new ≡ sink.old }

    // A run that breaks off has written a front of the output, and not the whole.
    ensures part { result ≡ Status.WriteFault → IfSome (T.contents tree.old) (λ contents.
        AppendsPart (S.written sink.old) (S.written sink.new)
        (output (map string_bytes words.now) contents).bytes) }

    // Each write is given all that is left of the output.
    ensures rests { IfSome (T.contents tree.old) (λ contents.
        GivesRests (S.chunks sink.old) (S.chunks sink.new)
        (output (map string_bytes words.now) contents).bytes) }

    // The folder is listed once, and then each module is read once, in order: none past the limit
    // on files, and none behind the one with which the bytes pass theirs. A run that the folder or
    // memory ends asks for a front of that.
    ensures asked { IfSome (T.contents tree.old) (λ contents.
        AppendsFront (T.asked tree.old) (T.asked tree.new)
        (asked (map string_bytes words.now) contents)) }
    ensures asked_all { result ≢ Status.ReadFault → result ≢ Status.NoMemory →
        IfSome (T.contents tree.old) (λ contents.
        Appends (T.asked tree.old) (T.asked tree.new)
        (asked (map string_bytes words.now) contents)) }
    ensures same { T.contents tree.new ≡ T.contents tree.old }
{
    lines_tell_certain_reports();
    match make_answer(alloc, words, tree) {
        Err(stop) => stop.into(),
        Ok(answer) => {
            if write_whole(sink, answer.text.as_slice()) {
                answer.status
            } else {
                Status::WriteFault
            }
        }
    }
}
