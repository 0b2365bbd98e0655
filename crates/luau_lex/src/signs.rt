ghost use Rattle.std.specs.Prelude.{◌≡◌, ◌≤◌, ◌<◌, length};
ghost use Rattle.luau_lex.specs.Computed.Pieces.{sign_piece};
ghost use Rattle.luau_lex.specs.Computed.Tokens.{IsWithin};
ghost use Rattle.luau_lex.specs.Computed.Signs.{takes_equals, stands_alone, sign_len_of, sign_len};

use crate::bytes::byte_at;
use crate::piece::Piece;
use crate::token::{Kind, LexError};

fn takes_equals(b: u8) -> bool
    ensures { result ≡ takes_equals b }
{
    matches!(b, b'+' | b'*' | b'%' | b'^' | b'=' | b'<' | b'>')
}

fn stands_alone(b: u8) -> bool
    ensures { result ≡ stands_alone b }
{
    matches!(
        b,
        b'#' | b'(' | b')' | b'{' | b'}' | b'[' | b']' | b';' | b',' | b'?' | b'|' | b'&' | b'@'
    )
}

#[tactic(auto, unfolding(crate::specs::Computed::Signs::sign_len_of))]
fn sign_len_of(a: u8, b: u8, c: u8) -> usize
    ensures value { result ≡ sign_len_of a b c }
    ensures most { result ≤ 3 }
    ensures first { 1 ≤ result → 0 < a }
    ensures second { 2 ≤ result → 0 < b }
    ensures third { 3 ≤ result → 0 < c }
{
    match a {
        b'.' if b == b'.' => if c == b'.' || c == b'=' { 3 } else { 2 },
        b'.' => 1,
        b'/' if b == b'/' => if c == b'=' { 3 } else { 2 },
        b'/' => if b == b'=' { 2 } else { 1 },
        b'~' => if b == b'=' { 2 } else { 0 },
        b'-' => if b == b'=' || b == b'>' { 2 } else { 1 },
        b':' => if b == b':' { 2 } else { 1 },
        _ if takes_equals(a) => if b == b'=' { 2 } else { 1 },
        _ => if stands_alone(a) { 1 } else { 0 },
    }
}

/// The length of the longest sign at the front, or 0 where there is none.
#[tactic(auto, unfolding(crate::specs::Computed::Signs::sign_len_of))]
pub fn sign_len(text: &[u8]) -> usize
    ensures value { result ≡ sign_len text.now }
    ensures within { result ≤ length text.now }
{
    sign_len_of(byte_at(text, 0), byte_at(text, 1), byte_at(text, 2))
}

/// The sign at the front.
#[tactic(auto, unfolding(crate::specs::Computed::Pieces::sign_piece))]
pub fn sign_piece(at: u32, text: &[u8]) -> Piece
    ensures value { result ≡ sign_piece at text.now }
    ensures within { IsWithin result (length text.now) }
{
    let n = sign_len(text);
    if n == 0 {
        Piece::Faulty(LexError::StrayByte(at))
    } else {
        Piece::Found(Kind::Sign, n)
    }
}
