ghost use Rattle.std.specs.Prelude.{◌≡◌, ◌≤◌, ◌<◌, length, IsTrue, true, drop, slice_index};
ghost use Rattle.std.specs.List.{list_any};
ghost use Rattle.std.specs.Char.{is_ascii_digit, is_ascii_hexdigit};
ghost use Rattle.luau_lex.specs.Bytes.{is_numeral_byte, is_exponent_letter, is_exponent_sign};
ghost use Rattle.luau_lex.specs.Computed.Pieces.{numeral_piece};
ghost use Rattle.luau_lex.specs.Computed.Tokens.{IsWithin};
ghost use Rattle.luau_lex.specs.Numerals.{begins_numeral};
ghost use Rattle.luau_lex.specs.Computed.Numerals.{numeral_len, exponent_len, is_digits, is_exponent_or_none, after_fraction, is_decimal, is_hex_part, is_binary_part, is_numeral};

use crate::bytes::{Class, byte_at, run_len};
use crate::piece::Piece;
use crate::token::{Kind, LexError};

/// Whether a numeral begins at the front.
pub fn begins_numeral(text: &[u8]) -> bool
    ensures value { result ≡ begins_numeral text.now }
    ensures first { result ≡ true → is_numeral_byte (slice_index text.now 0) ≡ true }
{
    byte_at(text, 0).is_ascii_digit()
        || (byte_at(text, 0) == b'.' && byte_at(text, 1).is_ascii_digit())
}

fn is_exponent_letter(b: u8) -> bool
    ensures { result ≡ is_exponent_letter b }
{
    b == b'e' || b == b'E'
}

fn is_exponent_sign(b: u8) -> bool
    ensures { result ≡ is_exponent_sign b }
{
    b == b'+' || b == b'-'
}

#[tactic(auto, unfolding(crate::specs::Computed::Numerals::exponent_len))]
fn exponent_len(text: &[u8]) -> usize
    ensures value { result ≡ exponent_len text.now }
    ensures within { result ≤ length text.now }
{
    if !is_exponent_letter(byte_at(text, 0)) {
        0
    } else if is_exponent_sign(byte_at(text, 1)) {
        2
    } else {
        1
    }
}

/// How many bytes the word of the numeral at the front takes.
#[tactic(auto, unfolding(crate::specs::Computed::Numerals::numeral_len))]
pub fn numeral_len(text: &[u8]) -> usize
    ensures some { is_numeral_byte (slice_index text.now 0) ≡ true → 1 ≤ result }
    ensures value { result ≡ numeral_len text.now }
    ensures within { result ≤ length text.now }
{
    let digits = run_len(text, Class::NumeralByte);
    let exponent = exponent_len(&text[digits..]);
    let word = digits + exponent;
    word + run_len(&text[word..], Class::NameByte)
}

#[tactic(auto, unfolding(crate::specs::Computed::Numerals::is_digits))]
fn is_digits(text: &[u8]) -> bool
    ensures { result ≡ is_digits text.now }
{
    byte_at(text, 0).is_ascii_digit() && run_len(text, Class::DigitOrUnderscore) == text.len()
}

#[tactic(auto, unfolding(crate::specs::Computed::Numerals::is_exponent_or_none))]
fn is_exponent_or_none(text: &[u8]) -> bool
    ensures { result ≡ is_exponent_or_none text.now }
{
    if text.len() == 0 {
        true
    } else {
        is_exponent_letter(byte_at(text, 0)) && is_digits(&text[exponent_len(text)..])
    }
}

#[tactic(auto, unfolding(crate::specs::Computed::Numerals::after_fraction))]
fn after_fraction(text: &[u8]) -> &[u8]
    ensures { result.now ≡ after_fraction text.now }
{
    if byte_at(text, 0) == b'.' {
        let digits = &text[1..];
        &digits[run_len(digits, Class::DigitOrUnderscore)..]
    } else {
        text
    }
}

#[tactic(auto, unfolding(crate::specs::Computed::Numerals::is_decimal))]
fn is_decimal(word: &[u8]) -> bool
    ensures { result ≡ is_decimal word.now }
{
    is_exponent_or_none(after_fraction(&word[run_len(word, Class::DigitOrUnderscore)..]))
}

fn has_hex_digit(text: &[u8]) -> bool
    ensures { result ≡ list_any is_ascii_hexdigit text.now }
{
    text.iter().any(|b| b.is_ascii_hexdigit())
}

fn has_digit(text: &[u8]) -> bool
    ensures { result ≡ list_any is_ascii_digit text.now }
{
    text.iter().any(|b| b.is_ascii_digit())
}

#[tactic(auto, unfolding(crate::specs::Computed::Numerals::is_hex_part))]
fn is_hex_part(text: &[u8]) -> bool
    ensures { result ≡ is_hex_part text.now }
{
    run_len(text, Class::HexOrUnderscore) == text.len() && has_hex_digit(text)
}

#[tactic(auto, unfolding(crate::specs::Computed::Numerals::is_binary_part))]
fn is_binary_part(text: &[u8]) -> bool
    ensures { result ≡ is_binary_part text.now }
{
    run_len(text, Class::BinaryOrUnderscore) == text.len() && has_digit(text)
}

/// Whether the word of a numeral is a numeral.
#[tactic(auto, unfolding(crate::specs::Computed::Numerals::is_numeral))]
pub fn is_numeral(word: &[u8]) -> bool
    ensures { result ≡ is_numeral word.now }
{
    let second = byte_at(word, 1);
    if byte_at(word, 0) != b'0' {
        is_decimal(word)
    } else if second == b'x' || second == b'X' {
        is_hex_part(&word[2..])
    } else if second == b'b' || second == b'B' {
        is_binary_part(&word[2..])
    } else {
        is_decimal(word)
    }
}

/// The numeral at the front.
#[tactic(auto, unfolding(crate::specs::Computed::Pieces::numeral_piece))]
pub fn numeral_piece(at: u32, text: &[u8]) -> Piece
    requires { is_numeral_byte (slice_index text.now 0) ≡ true }
    ensures value { result ≡ numeral_piece at text.now }
    ensures within { IsWithin result (length text.now) }
{
    let n = numeral_len(text);
    if is_numeral(&text[..n]) {
        Piece::Found(Kind::Numeral, n)
    } else {
        Piece::Faulty(LexError::BadNumeral(at))
    }
}
