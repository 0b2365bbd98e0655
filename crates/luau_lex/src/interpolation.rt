ghost use Rattle.std.specs.Prelude.{◌≡◌, ◌≤◌, ◌<◌, ◌+◌, length, slice_index};
ghost use Rattle.luau_lex.specs.Computed.Pieces.{part_piece};
ghost use Rattle.luau_lex.specs.Computed.Tokens.{IsWithin};

use crate::bytes::byte_at;
use crate::piece::Piece;
use crate::strings::{inside_len, unless_malformed};
use crate::token::{Kind, LexError};
use luau_tree::MAX_TEXT;

/// The part of an interpolated string behind the backquote or brace at the front: `last` where a backquote
/// ends it, `further` where a brace does. The string began at `start`.
#[tactic(auto, unfolding(crate::specs::Computed::Pieces::part_piece))]
pub fn part_piece(last: Kind, further: Kind, start: u32, at: u32, text: &[u8]) -> Piece
    requires some { 0 < length text.now }
    requires small { at + length text.now ≤ MAX_TEXT }
    ensures value { result ≡ part_piece last further start at text.now }
    ensures within { IsWithin result (length text.now) }
{
    let behind = &text[1..];
    let n = inside_len(b'`', behind);
    let end = byte_at(behind, n);
    if end == b'`' {
        unless_malformed(at, &behind[..n], Piece::Found(last, n + 2))
    } else if end != b'{' {
        Piece::Faulty(LexError::UnfinishedString(start))
    } else if byte_at(behind, n + 1) == b'{' {
        let double = Piece::Faulty(LexError::DoubleBrace(at + 1 + n as u32));
        unless_malformed(at, &behind[..n], double)
    } else {
        unless_malformed(at, &behind[..n], Piece::Found(further, n + 2))
    }
}
