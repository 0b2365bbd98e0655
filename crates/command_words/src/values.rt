//! The values of a command's options.
ghost use Rattle.std.specs.Prelude.{◌≡◌, IfSome, option_map, option_copied};
ghost use Rattle.std.specs.Str.{all_ascii_digits};
ghost use Rattle.command_words.specs.Command as spec;
ghost use Rattle.command_words.specs.Given.{source_of};
ghost use Rattle.command_words.specs.Limits.{IsSmall, IsUpTo};

use crate::options::{Format, Source};

/// Whether a text is decimal digits alone.
fn is_digits(text: &[u8]) -> bool
    ensures { result ≡ all_ascii_digits text.now }
{
    for byte in text {
        if !byte.is_ascii_digit() {
            return false;
        }
    }
    true
}

/// Whether a text is a number in decimal digits without a leading zero.
fn is_number(text: &[u8]) -> bool
    ensures { result ≡ spec.is_number text.now }
{
    match text {
        [first, rest @ ..] => first.is_ascii_digit() && *first != b'0' && is_digits(rest),
        [] => false,
    }
}

/// The number that a text is, if it is at most so great.
fn number_up_to(most: u32, text: &str) -> Option<u32>
    ensures number { result ≡ spec.number_up_to most text.now }
    ensures limit { IfSome result (IsUpTo most) }
{
    if !is_number(text.as_bytes()) {
        return None;
    }
    let number = text.parse::<u32>().ok()?;
    if number <= most { Some(number) } else { None }
}

/// How many workers there are.
pub(crate) fn workers(value: Option<&str>) -> Option<u32>
    ensures number { result ≡ spec.workers_of (option_copied value.entry) }
    ensures limit { IfSome result (IsUpTo 64) }
{
    match value {
        None => Some(4),
        Some(value) => number_up_to(64, value),
    }
}

/// How lines are written.
pub(crate) fn format(value: Option<&str>) -> Option<Format>
    ensures { result ≡ spec.format_of (option_copied value.entry) }
{
    match value {
        None | Some("text") => Some(Format::Text),
        Some("json") => Some(Format::Json),
        Some(_) => None,
    }
}

/// What is checked, by the one word that stands alone.
pub(crate) fn source(word: &str) -> Option<Source<'_>>
    ensures source { option_map source_of result ≡ spec.source_of (Some word.now) }
    ensures limit { IfSome result IsSmall }
{
    match word.strip_prefix("sample:") {
        None => Some(Source::Folder(word)),
        Some(number) => Some(Source::Sample(number_up_to(10_000, number)?)),
    }
}
