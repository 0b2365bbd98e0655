ghost use Rattle.std.specs.Prelude.{◌≡◌, ◌≤◌, ◌<◌, ◌+◌, ◌^◌, length, slice_index, IfSome, ℕ};
ghost use Rattle.luau_lex.specs.Computed.Pieces.{quoted_piece, unless_malformed};
ghost use Rattle.luau_lex.specs.Computed.Tokens.{IsWithin};
ghost use Rattle.luau_lex.specs.Computed.Strings.{ends_inside, inside_len, malformed_at};

use crate::bytes::byte_at;
use crate::elements::element;
use crate::piece::Piece;
use crate::token::{Kind, LexError};
use luau_tree::MAX_TEXT;

#[tactic(auto, unfolding(crate::specs::Computed::Strings::ends_inside))]
fn ends_inside(mark: u8, b: u8) -> bool
    ensures { result ≡ ends_inside mark b }
{
    b == mark || b == b'\n' || b == b'\r' || (mark == b'`' && b == b'{')
}

/// How many bytes the inside of a string takes, in the text that follows its mark.
pub fn inside_len(mark: u8, text: &[u8]) -> usize
    ensures value { result ≡ inside_len mark text.now }
    ensures within { result ≤ length text.now }
{
    let mut n = 0;
    while n < text.len() && !ends_inside(mark, text[n]) {
        n += element(&text[n..]).len;
    }
    n
}

/// Where the first malformed escape stands inside of a string.
pub fn malformed_at(inside: &[u8]) -> Option<usize>
    ensures value { result ≡ malformed_at inside.now }
    ensures within { IfSome result (λ n. n < length inside.now) }
{
    let mut n = 0;
    while n < inside.len() {
        let front = element(&inside[n..]);
        if front.stands.is_malformed() {
            return Some(n);
        }
        n += front.len;
    }
    None
}

/// The piece, unless an escape inside of its string at this offset is malformed.
pub fn unless_malformed(at: u32, inside: &[u8], piece: Piece) -> Piece
    requires { at + 1 + length inside.now < 2 ^ 32 }
    ensures value { result ≡ unless_malformed at (malformed_at inside.now) piece }
    ensures within { (most : ℕ) → IsWithin piece most → IsWithin result most }
{
    match malformed_at(inside) {
        Some(n) => Piece::Faulty(LexError::BadEscape(at + 1 + n as u32)),
        None => piece,
    }
}

/// The string between quotes at the front.
#[tactic(auto, unfolding(crate::specs::Computed::Pieces::quoted_piece))]
pub fn quoted_piece(at: u32, text: &[u8]) -> Piece
    requires mark { 0 < slice_index text.now 0 }
    requires small { at + length text.now ≤ MAX_TEXT }
    ensures value { result ≡ quoted_piece at text.now }
    ensures within { IsWithin result (length text.now) }
{
    let mark = byte_at(text, 0);
    let behind = &text[1..];
    let n = inside_len(mark, behind);
    if byte_at(behind, n) == mark {
        unless_malformed(at, &behind[..n], Piece::Found(Kind::Quoted, n + 2))
    } else {
        Piece::Faulty(LexError::UnfinishedString(at))
    }
}
