ghost use Rattle.std.specs.Prelude.{◌≡◌, ◌++◌, ℕ, List, All, codes, take, vec_len, IfOk, OnOk, OnErr};
ghost use Rattle.diag_text.specs.Line.{printable_byte, printable, IsPrintable, text_of};

use crate::line::Line;
use itoa::Buffer;
use luau_tree::Bytes;
use std::alloc::{AllocError, Global};

/// The line's text: `PATH:LINE:COLUMN: MESSAGE` and a line feed, where each control character of the path and
/// the message is shown as `?`.
pub fn text_line(alloc: Global, line: &Line) -> Result<Bytes, AllocError>
    ensures { IfOk result (λ text. text ≡ text_of line.now) }
{
    let mut text = Vec::new(alloc);
    push_text_line(&mut text, line)?;
    Ok(Bytes::of(text))
}

/// Puts the line's text, as [`text_line`] gives it, at the end of `out`. After an error `out` is as it was.
pub fn push_text_line(out: &mut Vec<u8>, line: &Line) -> Result<(), AllocError>
    ensures ok { OnOk result (out.new.items ≡ out.old.items ++ text_of line.now) }
    ensures err { OnErr result (out.new.items ≡ out.old.items) }
{
    let before = out.len();
    if let Err(error) = push_parts(out, line) {
        out.truncate(before);
        return Err(error);
    }
    Ok(())
}

/// Puts the line's text at the end of `out`, or a part of it.
fn push_parts(out: &mut Vec<u8>, line: &Line) -> Result<(), AllocError>
    ensures ok { OnOk result (out.new.items ≡ out.old.items ++ text_of line.now) }
    ensures err { OnErr result (take (vec_len out.old) out.new.items ≡ out.old.items) }
{
    let mut digits = Buffer::new();
    push_printable(out, line.path.as_slice())?;
    out.push(b':')?;
    out.extend_from_slice(digits.format(line.at.line).as_bytes())?;
    out.push(b':')?;
    out.extend_from_slice(digits.format(line.at.column).as_bytes())?;
    out.extend_from_slice(b": ")?;
    push_printable(out, line.message.as_slice())?;
    out.push(b'\n')?;
    Ok(())
}

/// Puts the bytes at the end of `out`, or the first of them, as a text line shows them.
fn push_printable(out: &mut Vec<u8>, bytes: &[u8]) -> Result<(), AllocError>
    ensures ok { OnOk result (out.new.items ≡ out.old.items ++ printable bytes.now) }
    ensures err { OnErr result (take (vec_len out.old) out.new.items ≡ out.old.items) }
{
    out.extend(bytes.iter().map(|byte| shown(*byte)))
}

/// The byte as a text line shows it: `?` for a control character.
fn shown(byte: u8) -> u8
    ensures { result ≡ printable_byte byte }
{
    if byte < b' ' || byte == 0x7f {
        b'?'
    } else {
        byte
    }
}

/// Bytes without control characters are shown as they are.
pub fn printable_bytes_are_kept(bytes: &[u8])
    requires { All IsPrintable bytes.now }
    ensures { printable bytes.now ≡ bytes.now }
{}

/// The text of a line is one line: its only control character is the line feed at its end.
pub fn a_text_line_is_one_line(line: &Line)
    ensures { (shown : List ℕ) × (text_of line.now ≡ shown ++ codes "\n") × All IsPrintable shown }
{
    let (_line, _column) = (line.at.line, line.at.column);
}

#[cfg(test)]
mod tests {
    use super::*;
    use crate::line::LineKind;
    use crate::line::tests::line;
    use std::test::Fail;

    #[test]
    fn a_text_line_is_path_place_and_message(rt: HostRuntime) -> Result<(), Fail> {
        let alloc = rt.alloc();
        let mut all = Vec::from_slice(alloc, b"> ")?;
        for (path, place, kind, message, text) in [
            (
                "a.luau",
                (1u32, 10u32),
                LineKind::Argument,
                "argument 1 of math.abs always fails",
                "a.luau:1:10: argument 1 of math.abs always fails\n",
            ),
            (
                "x/a\nb.luau",
                (4_294_967_295, 1),
                LineKind::Value,
                "value of \u{7f}\t~ \u{1f} always fails",
                "x/a?b.luau:4294967295:1: value of ??~ ? always fails\n",
            ),
            ("", (0, 0), LineKind::Refused, "\u{e9}:", ":0:0: \u{e9}:\n"),
        ] {
            let line = line(alloc, path, place, kind, message)?;
            let alone = text_line(alloc, &line)?;
            assert_eq!(rt; alone.as_slice(), text.as_bytes());
            let before = all.len();
            push_text_line(&mut all, &line)?;
            assert_eq!(rt; all.len(), before + text.len());
        }
        assert!(rt;
            all.as_slice()
                .starts_with(b"> a.luau:1:10: argument".as_slice())
        );
        assert!(rt;
            all.as_slice()
                .ends_with(b" always fails\n:0:0: \xc3\xa9:\n".as_slice())
        );
        Ok(())
    }
}
