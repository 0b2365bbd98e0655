//! The words of a command, read one after another.
ghost use Rattle.std.specs.Prelude.{◌≡◌, map, option_map, option_and_then, option_copied, string_bytes};
ghost use Rattle.command_words.specs.Command.{parts};
ghost use Rattle.command_words.specs.Given.{gathered, given_of, nothing, part_of, put, reading_of, step, with_part};

use crate::name::Name;
use crate::part::{Part, given, part_in};

/// What words give: the value of each option, and the word that stands alone.
#[derive(Clone, Copy, Debug)]
pub(crate) struct Given<'a> {
    pub workers: Option<&'a str>,
    pub format: Option<&'a str>,
    pub decl: Option<&'a str>,
    pub alone: Option<&'a str>,
}

/// A text where there was none so far.
fn put<'a>(so_far: Option<&'a str>, text: &'a str) -> Option<Option<&'a str>>
    ensures { option_map option_copied result ≡ put (option_copied so_far.entry) text.now }
{
    match so_far {
        None => Some(Some(text)),
        Some(_) => None,
    }
}

impl<'a> Given<'a> {
    /// What a part gives beside what was given so far, if it wasn't given yet.
    fn with(self, part: Part<'a>) -> Option<Given<'a>>
        ensures { option_map given_of result ≡ with_part (given_of self.entry) (part_of part.entry) }
    {
        match part {
            Part::Given(Name::Workers, value) => Some(Given {
                workers: put(self.workers, value)?,
                ..self
            }),
            Part::Given(Name::Format, value) => Some(Given {
                format: put(self.format, value)?,
                ..self
            }),
            Part::Given(Name::Decl, value) => Some(Given {
                decl: put(self.decl, value)?,
                ..self
            }),
            Part::Alone(word) => Some(Given {
                alone: put(self.alone, word)?,
                ..self
            }),
        }
    }
}

/// What the words so far give, and the option whose value comes next.
#[derive(Clone, Copy, Debug)]
struct Reading<'a> {
    given: Given<'a>,
    waiting: Option<Name>,
}

impl<'a> Reading<'a> {
    /// The reading after one more word.
    fn step(self, word: &'a str) -> Option<Reading<'a>>
        ensures { option_map reading_of result ≡ step (reading_of self.entry) word.now }
    {
        let next = match self.waiting {
            Some(name) => given(name, word)?,
            None => {
                let waiting = Name::of(word);
                if waiting.is_some() {
                    return Some(Reading { waiting, ..self });
                }
                part_in(word)?
            }
        };
        Some(Reading {
            given: self.given.with(next)?,
            waiting: None,
        })
    }
}

/// What words give, if they are parts of a command and none is there twice.
pub(crate) fn read(words: &[String]) -> Option<Given<'_>>
    ensures { option_map given_of result ≡ option_and_then (gathered nothing) (parts (map string_bytes words.now)) }
{
    let given = Given {
        workers: None,
        format: None,
        decl: None,
        alone: None,
    };
    let mut reading = Reading {
        given,
        waiting: None,
    };
    for word in words {
        reading = reading.step(word.as_str())?;
    }
    match reading.waiting {
        Some(_) => None,
        None => Some(reading.given),
    }
}
