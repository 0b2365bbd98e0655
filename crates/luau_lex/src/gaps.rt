ghost use Rattle.std.specs.Prelude.{◌≡◌, ◌≤◌, ◌+◌, length, drop};
ghost use Rattle.luau_lex.specs.Computed.Pieces.{comment_piece, long_comment_of};
ghost use Rattle.luau_lex.specs.Computed.Brackets.{closing_place};
ghost use Rattle.luau_lex.specs.Computed.Tokens.{IsWithin};

use crate::brackets::{closing_place, level};
use crate::bytes::{Class, run_len};
use crate::piece::Piece;
use crate::token::LexError;

/// The comment in long brackets of this level at the front.
#[tactic(auto, unfolding(crate::specs::Computed::Pieces::long_comment_of))]
fn long_comment(signs: usize, at: u32, text: &[u8]) -> Piece
    requires { signs + 4 ≤ length text.now }
    ensures value { result ≡ long_comment_of at (closing_place signs (drop (signs + 4) text.now)) signs }
    ensures within { IsWithin result (length text.now) }
{
    match closing_place(signs, &text[signs + 4..]) {
        Some(place) => Piece::Gap(signs + 4 + place + signs + 2),
        None => Piece::Faulty(LexError::UnfinishedComment(at)),
    }
}

/// The comment at the front.
#[tactic(auto, unfolding(crate::specs::Computed::Pieces::comment_piece, crate::specs::Computed::Pieces::comment_of))]
pub fn comment_piece(at: u32, text: &[u8]) -> Piece
    requires { 2 ≤ length text.now }
    ensures value { result ≡ comment_piece at text.now }
    ensures within { IsWithin result (length text.now) }
{
    match level(&text[2..]) {
        Some(signs) => long_comment(signs, at, text),
        None => Piece::Gap(2 + run_len(&text[2..], Class::NoLineFeed)),
    }
}
