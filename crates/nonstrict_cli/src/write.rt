//! Writes the output. From here on no memory is taken.
ghost use Rattle.std.specs.Prelude.{◌≡◌};
ghost use Rattle.std.specs.Bool.{OnFalse, OnTrue};
ghost use Rattle.outside.specs.Cause.{Rose};
ghost use Rattle.outside.specs.Written.{Appends};
ghost use Rattle.nonstrict_cli.specs.Written.{AppendsPart, GivesRests};

use outside::Sink;

/// Gives the text to the sink, each time the whole rest, and says whether the sink took it all. It
/// ends where the sink fails, or takes nothing while bytes are left.
pub(crate) fn write_whole<S: Sink>(sink: &mut S, text: &[u8]) -> bool
    ensures whole { OnTrue result (Appends (S.written sink.old) (S.written sink.new) text.now) }
    ensures rests { GivesRests (S.chunks sink.old) (S.chunks sink.new) text.now }
    ensures quiet { OnTrue result (S.faults sink.new ≡ S.faults sink.old) }
    ensures part { OnFalse result (AppendsPart (S.written sink.old) (S.written sink.new) text.now) }
    ensures fault { OnFalse result (Rose (S.faults sink.old) (S.faults sink.new)) }
{
    let mut done = 0;
    while done < text.len() {
        let Ok(count) = sink.write(&text[done..]) else {
            return false;
        };
        if count == 0 {
            return false;
        }
        done += count;
    }
    true
}
