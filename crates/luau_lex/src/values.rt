ghost use Rattle.std.specs.Prelude.{◌≡◌, ◌≤◌, ◌++◌, [], OnOk, IfOk, unwrap_or};
ghost use Rattle.luau_lex.specs.Computed.Values.{between_marks, long_value, marked_value, string_value};
ghost use Rattle.luau_lex.specs.Values.{StandsFor};
ghost use Rattle.luau_lex.specs.LineEnds.{without_first_line_end, is_line_end_pair, with_line_feeds};
ghost use Rattle.luau_lex.specs.Numbers.{utf8_scheme};
ghost use Rattle.luau_lex.specs.Computed.Strings.{value_of_inside};
ghost use Rattle.luau_lex.specs.Computed.Steps.{stands_value, IsWritable};

use crate::bytes::{Class, byte_at, run_len};
use crate::elements::{Stands, element};
use crate::token::{Kind, Token};
use luau_tree::Bytes;
use std::alloc::{AllocError, Global};

/// Adds the bytes of a number by the scheme of UTF-8.
#[tactic(auto, unfolding(crate::specs::Numbers::utf8_scheme))]
fn push_code(out: &mut Vec<u8>, n: u32) -> Result<(), AllocError>
    requires { n ≤ 0x10FFFF }
    ensures { OnOk result (out.new.items ≡ out.old.items ++ utf8_scheme n) }
{
    if n < 0x80 {
        out.extend_from_slice(&[n as u8])
    } else if n < 0x800 {
        out.extend_from_slice(&[(0xC0 + n / 0x40) as u8, (0x80 + n % 0x40) as u8])
    } else if n < 0x1_0000 {
        out.extend_from_slice(&[
            (0xE0 + n / 0x1000) as u8,
            (0x80 + n / 0x40 % 0x40) as u8,
            (0x80 + n % 0x40) as u8,
        ])
    } else {
        out.extend_from_slice(&[
            (0xF0 + n / 0x4_0000) as u8,
            (0x80 + n / 0x1000 % 0x40) as u8,
            (0x80 + n / 0x40 % 0x40) as u8,
            (0x80 + n % 0x40) as u8,
        ])
    }
}

/// Adds what an element of a string stands for.
fn push_element(out: &mut Vec<u8>, stands: Stands) -> Result<(), AllocError>
    requires { IsWritable stands }
    ensures { OnOk result (out.new.items ≡ out.old.items ++ unwrap_or (stands_value stands) []) }
{
    match stands {
        Stands::Byte(b) => {
            out.push(b)?;
            Ok(())
        }
        Stands::Code(n) => push_code(out, n),
        Stands::Nothing => Ok(()),
        Stands::Malformed => Ok(()),
    }
}

/// The bytes that the inside of a string stands for.
fn value_of_inside(alloc: Global, inside: &[u8]) -> Result<Vec<u8>, AllocError>
    ensures { IfOk result (λ v. v.items ≡ value_of_inside inside.now) }
{
    let mut out = Vec::new(alloc);
    let mut n = 0;
    while n < inside.len() {
        let front = element(&inside[n..]);
        push_element(&mut out, front.stands)?;
        n += front.len;
    }
    Ok(out)
}

/// What stands between marks of this length at both ends.
#[tactic(auto, unfolding(crate::specs::Computed::Values::between_marks))]
fn between_marks(mark: usize, bytes: &[u8]) -> &[u8]
    ensures { result.now ≡ between_marks mark bytes.now }
{
    let inside = &bytes[mark.min(bytes.len())..];
    let most = inside.len().saturating_sub(mark);
    &inside[..most]
}

/// Whether a carriage return stands directly before a line feed at the front.
fn is_line_end_pair(text: &[u8]) -> bool
    ensures { result ≡ is_line_end_pair text.now }
{
    byte_at(text, 0) == b'\r' && byte_at(text, 1) == b'\n'
}

/// The text without a line end at its front.
#[tactic(auto, unfolding(crate::specs::LineEnds::without_first_line_end))]
fn without_first_line_end(text: &[u8]) -> &[u8]
    ensures { result.now ≡ without_first_line_end text.now }
{
    if byte_at(text, 0) == b'\n' {
        &text[1..]
    } else if is_line_end_pair(text) {
        &text[2..]
    } else {
        text
    }
}

/// The text with a line feed for each carriage return and line feed.
fn with_line_feeds(alloc: Global, text: &[u8]) -> Result<Vec<u8>, AllocError>
    ensures { IfOk result (λ v. v.items ≡ with_line_feeds text.now) }
{
    let mut out = Vec::new(alloc);
    for i in 0..text.len() {
        if !(text[i] == b'\r' && byte_at(text, i + 1) == b'\n') {
            out.push(text[i])?;
        }
    }
    Ok(out)
}

/// The bytes of a string in long brackets.
#[tactic(auto, unfolding(crate::specs::Computed::Values::long_value))]
fn long_value(alloc: Global, bytes: &[u8]) -> Result<Vec<u8>, AllocError>
    ensures { IfOk result (λ v. v.items ≡ long_value bytes.now) }
{
    let signs = if bytes.is_empty() {
        0
    } else {
        run_len(&bytes[1..], Class::EqualsSign)
    };
    with_line_feeds(
        alloc,
        without_first_line_end(between_marks(signs + 2, bytes)),
    )
}

/// The bytes of a string between marks of one byte.
#[tactic(auto, unfolding(crate::specs::Computed::Values::marked_value))]
fn marked_value(alloc: Global, bytes: &[u8]) -> Result<Vec<u8>, AllocError>
    ensures { IfOk result (λ v. v.items ≡ marked_value bytes.now) }
{
    value_of_inside(alloc, between_marks(1, bytes))
}

/// The bytes that a string, or a part of an interpolated string, stands for, without its marks. The
/// token is one that `lex` gave, and of such a kind. The rules are in `docs/LANGUAGE.md`, "Tokens".
pub fn value_of(alloc: Global, token: &Token<'_>) -> Result<Bytes, AllocError>
    ensures value { IfOk result (λ v. StandsFor token.now.kind token.now.text.now v) }
    // The same value as a function.
    ensures computed { IfOk result (λ v. v ≡ string_value token.now.kind token.now.text.now) }
{
    let value = match token.kind {
        Kind::Long => long_value(alloc, token.text)?,
        _ => marked_value(alloc, token.text)?,
    };
    Ok(Bytes::of(value))
}
