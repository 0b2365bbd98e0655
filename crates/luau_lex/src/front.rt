ghost use Rattle.std.specs.Prelude.{◌≡◌, ◌≤◌, ◌<◌, ◌+◌, length};
ghost use Rattle.luau_lex.specs.Computed.Pieces.{piece, other_piece, closing_piece, part_open, innermost, bracket_or_sign};
ghost use Rattle.luau_lex.specs.Computed.Brackets.{level};
ghost use Rattle.luau_lex.specs.Computed.Tokens.{IsWithin};

use crate::brackets::{level, long_piece};
use crate::bytes::{Class, byte_at, is_blank, is_name_start, run_len};
use crate::gaps::comment_piece;
use crate::interpolation::part_piece;
use crate::names::name_piece;
use crate::numerals::{begins_numeral, numeral_piece};
use crate::piece::{Open, Piece};
use crate::signs::sign_piece;
use crate::strings::quoted_piece;
use crate::token::Kind;
use luau_tree::MAX_TEXT;

/// What stands at the closing brace at the front, where the interpolated string that goes on there, if one
/// does, began at `start`.
#[tactic(auto, unfolding(crate::specs::Computed::Pieces::closing_piece))]
fn closing_piece(start: Option<u32>, at: u32, text: &[u8]) -> Piece
    requires some { 0 < length text.now }
    requires small { at + length text.now ≤ MAX_TEXT }
    ensures value { result ≡ closing_piece start at text.now }
    ensures within { IsWithin result (length text.now) }
{
    match start {
        Some(start) => part_piece(Kind::End, Kind::Mid, start, at, text),
        None => sign_piece(at, text),
    }
}

/// Where the interpolated string begins whose brace this is.
fn part_open(brace: Option<Open>) -> Option<u32>
    ensures { result ≡ part_open brace }
{
    match brace {
        Some(Open::Part(start)) => Some(start),
        Some(Open::Brace) => None,
        None => None,
    }
}

#[tactic(auto, unfolding(crate::specs::Computed::Pieces::bracket_or_sign))]
fn bracket_or_sign(at: u32, text: &[u8]) -> Piece
    requires some { 0 < length text.now }
    requires small { at + length text.now ≤ MAX_TEXT }
    ensures value { result ≡ bracket_or_sign (level text.now) at text.now }
    ensures within { IsWithin result (length text.now) }
{
    match level(text) {
        Some(signs) => long_piece(signs, at, text),
        None => sign_piece(at, text),
    }
}

#[tactic(auto, unfolding(crate::specs::Computed::Pieces::other_piece))]
fn other_piece(brace: Option<Open>, at: u32, text: &[u8]) -> Piece
    requires some { 0 < length text.now }
    requires small { at + length text.now ≤ MAX_TEXT }
    ensures value { result ≡ other_piece brace at text.now }
    ensures within { IsWithin result (length text.now) }
{
    let b = byte_at(text, 0);
    if b == b'`' {
        part_piece(Kind::Whole, Kind::Begin, at, at, text)
    } else if b == b'}' {
        closing_piece(part_open(brace), at, text)
    } else if b == b'-' && byte_at(text, 1) == b'-' {
        comment_piece(at, text)
    } else {
        bracket_or_sign(at, text)
    }
}

/// What stands at the front of a text that isn't empty, at this offset, where `brace` is the innermost open
/// brace.
#[tactic(auto, unfolding(crate::specs::Computed::Pieces::piece))]
pub fn piece(brace: Option<Open>, at: u32, text: &[u8]) -> Piece
    requires some { 0 < length text.now }
    requires small { at + length text.now ≤ MAX_TEXT }
    ensures value { result ≡ piece brace at text.now }
    ensures within { IsWithin result (length text.now) }
{
    let b = byte_at(text, 0);
    if is_blank(b) {
        Piece::Gap(run_len(text, Class::Blank))
    } else if is_name_start(b) {
        name_piece(text)
    } else if begins_numeral(text) {
        numeral_piece(at, text)
    } else if b == b'"' || b == b'\'' {
        quoted_piece(at, text)
    } else {
        other_piece(brace, at, text)
    }
}
