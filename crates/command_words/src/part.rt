//! The parts of a command.
ghost use Rattle.std.specs.Prelude.{◌≡◌, option_map};
ghost use Rattle.command_words.specs.Command as spec;
ghost use Rattle.command_words.specs.Given.{part_of};

use crate::name::Name;

/// A part of a command: an option with its value, or a word that stands alone.
#[derive(Clone, Copy, Debug)]
pub(crate) enum Part<'a> {
    Given(Name, &'a str),
    Alone(&'a str),
}

/// Whether a text can be a value, or a word that stands alone.
fn is_plain(text: &str) -> bool
    ensures { result ≡ spec.is_plain text.now }
{
    match text.as_bytes() {
        [first, ..] => *first != b'-',
        [] => false,
    }
}

/// An option with its value, if it can be one.
pub(crate) fn given(name: Name, value: &str) -> Option<Part<'_>>
    ensures { option_map part_of result ≡ spec.given (Some name) value.now }
{
    if is_plain(value) {
        Some(Part::Given(name, value))
    } else {
        None
    }
}

/// An option and its value around the first `=` of a word.
fn attached(word: &str) -> Option<Part<'_>>
    ensures { option_map part_of result ≡ spec.attached word.now }
{
    let (name, value) = word.split_once('=')?;
    given(Name::of(name)?, value)
}

/// The part that one word is.
pub(crate) fn part_in(word: &str) -> Option<Part<'_>>
    ensures { option_map part_of result ≡ spec.part word.now }
{
    if is_plain(word) {
        Some(Part::Alone(word))
    } else {
        attached(word)
    }
}
