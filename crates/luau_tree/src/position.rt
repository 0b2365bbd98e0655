ghost use Rattle.std.specs.Prelude.{◌≡◌, ◌^◌, ◌<◌, ◌≤◌, length};
ghost use Rattle.luau_tree.specs.Position.{pos_at};
ghost use Rattle.luau_tree.specs.Steps.{place_after, PosStands};

use std::marker::Model;

/// A range of bytes of a text, from `start` up to and without `end`, as offsets from the text's first byte.
#[derive(Clone, Copy, Debug, PartialEq, Eq)]
pub struct Span {
    pub start: u32,
    pub end: u32,
}

/// A place as people count it: the line from 1, and the column from 1 in bytes.
#[derive(Clone, Copy, Debug, PartialEq, Eq, PartialOrd, Ord)]
pub struct Pos {
    pub line: u32,
    pub column: u32,
}

/// The longest text in which places are told, in bytes.
pub const MAX_TEXT: usize = 1_048_576;

/// The place after a byte that stands at `pos`.
fn after(pos: Pos, byte: u8) -> Pos
    requires line { pos.line < 2 ^ 31 }
    requires column { pos.column < 2 ^ 31 }
    ensures { result ≡ place_after pos byte }
{
    if byte == b'\n' {
        Pos {
            line: pos.line + 1,
            column: 1,
        }
    } else {
        Pos {
            line: pos.line,
            column: pos.column + 1,
        }
    }
}

/// The place of the offset `end`, from that of the offset `start`.
#[tactic(auto, using(crate::proofs::Places::places))]
fn place_from(text: &[u8], start: usize, pos: Pos, end: usize) -> Pos
    requires forward { start ≤ end }
    requires within { end ≤ length text.now }
    requires place { PosStands text.now start pos }
    ensures { result ≡ pos_at text.now end }
{
    let mut pos = pos;
    for i in start..end {
        pos = after(pos, text[i]);
    }
    pos
}

/// Tells places in a text. Where the offsets that are asked for never go back, it goes over the text once.
#[derive(Debug, Drop)]
pub struct Cursor<'a> {
    text: &'a [u8],
    offset: usize,
    pos: Pos,
}

impl<'a> Model for Cursor<'a> {
    ghost use Rattle.std.specs.Prelude.{List, ℕ};
    ghost use Rattle.luau_tree.specs.Steps.{PosStands};

    ghost Value = { List ℕ };

    ghost view = { λ c. c.text.now };

    ghost invariant = { λ c. PosStands c.text.now c.offset c.pos };
}

impl<'a> Cursor<'a> {
    /// A cursor over the text, which has at most 1,048,576 bytes. It stands at the start.
    pub fn new(text: &'a [u8]) -> Cursor<'a>
        requires { length text.now ≤ MAX_TEXT }
        ensures { result ≡ text.now }
    {
        Cursor {
            text,
            offset: 0,
            pos: Pos { line: 1, column: 1 },
        }
    }

    /// The place of an offset, at which the cursor then stands.
    pub fn place(&mut self, offset: u32) -> Pos
        requires { offset ≤ length self.old }
        ensures place { result ≡ pos_at self.old offset }
        ensures same { self.new ≡ self.old }
    {
        let end = offset as usize;
        let pos = if self.offset <= end {
            place_from(self.text, self.offset, self.pos, end)
        } else {
            place_from(self.text, 0, Pos { line: 1, column: 1 }, end)
        };
        self.pos = pos;
        self.offset = end;
        pos
    }
}

/// The line and the column of an offset, which is at most the length of the text. The text has at most
/// 1,048,576 bytes. The line is one more than the number of line feeds before the offset, the column one more
/// than the number of bytes since the last of these, or since the start.
pub fn pos_of(text: &[u8], offset: u32) -> Pos
    requires within { offset ≤ length text.now }
    requires short { length text.now ≤ MAX_TEXT }
    ensures { result ≡ pos_at text.now offset }
{
    Cursor::new(text).place(offset)
}

#[cfg(test)]
mod tests {
    use super::*;

    #[test]
    fn lines_and_columns_count_from_one(rt: HostRuntime) {
        let text = b"ab\n\ncd\r\nx";
        for (offset, line, column) in [
            (0u32, 1u32, 1u32),
            (2, 1, 3),
            (3, 2, 1),
            (4, 3, 1),
            (6, 3, 3),
            (8, 4, 1),
            (9, 4, 2),
        ] {
            assert_eq!(rt; pos_of(text, offset), Pos { line, column }, "at {offset}");
        }
        assert_eq!(rt; pos_of(b"", 0), Pos { line: 1, column: 1 });
    }

    #[test]
    fn a_cursor_may_go_back(rt: HostRuntime) {
        let mut cursor = Cursor::new(b"ab\ncd");
        assert_eq!(rt; cursor.place(4), Pos { line: 2, column: 2 });
        assert_eq!(rt; cursor.place(5), Pos { line: 2, column: 3 });
        assert_eq!(rt; cursor.place(1), Pos { line: 1, column: 2 });
        assert_eq!(rt; cursor.place(3), Pos { line: 2, column: 1 });
    }
}
