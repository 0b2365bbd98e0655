ghost use Rattle.std.specs.Prelude.{◌≡◌, ◌≤◌, ◌+◌, length, IfSome};
ghost use Rattle.std.specs.Bool.{OnTrue};
ghost use Rattle.luau_lex.specs.Computed.Pieces.{long_piece};
ghost use Rattle.luau_lex.specs.Computed.Tokens.{IsWithin};
ghost use Rattle.luau_lex.specs.Computed.Brackets.{level, closes, closing_place};

use crate::bytes::{Class, byte_at, run_len};
use crate::piece::Piece;
use crate::token::{Kind, LexError};

/// The level of the long bracket that opens at the front.
#[tactic(auto, unfolding(crate::specs::Computed::Brackets::level))]
pub fn level(text: &[u8]) -> Option<usize>
    ensures value { result ≡ level text.now }
    ensures within { IfSome result (λ signs. signs + 2 ≤ length text.now) }
{
    if byte_at(text, 0) != b'[' {
        return None;
    }
    let signs = run_len(&text[1..], Class::EqualsSign);
    if byte_at(&text[1..], signs) == b'[' {
        Some(signs)
    } else {
        None
    }
}

/// Whether a long bracket of this level closes at the front.
#[tactic(auto, unfolding(crate::specs::Computed::Brackets::closes))]
fn closes(signs: usize, text: &[u8]) -> bool
    ensures value { result ≡ closes signs text.now }
    ensures within { OnTrue result (signs + 2 ≤ length text.now) }
{
    byte_at(text, 0) == b']'
        && run_len(&text[1..], Class::EqualsSign) == signs
        && byte_at(&text[1..], signs) == b']'
}

/// How many bytes stand before the first place where a long bracket of this level closes.
pub fn closing_place(signs: usize, text: &[u8]) -> Option<usize>
    ensures value { result ≡ closing_place signs text.now }
    ensures within { IfSome result (λ place. place + signs + 2 ≤ length text.now) }
{
    for i in 0..text.len() {
        if closes(signs, &text[i..]) {
            return Some(i);
        }
    }
    None
}

/// The string in long brackets of this level at the front.
#[tactic(auto, unfolding(crate::specs::Computed::Pieces::long_piece, crate::specs::Computed::Pieces::long_of))]
pub fn long_piece(signs: usize, at: u32, text: &[u8]) -> Piece
    requires { signs + 2 ≤ length text.now }
    ensures value { result ≡ long_piece signs at text.now }
    ensures within { IsWithin result (length text.now) }
{
    match closing_place(signs, &text[signs + 2..]) {
        Some(place) => Piece::Found(Kind::Long, signs + 2 + place + signs + 2),
        None => Piece::Faulty(LexError::UnfinishedString(at)),
    }
}
