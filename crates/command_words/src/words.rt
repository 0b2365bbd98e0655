ghost use Rattle.std.specs.Prelude.{◌≡◌, IfSome, map, option_map, string_bytes};
ghost use Rattle.command_words.specs.Command as spec;
ghost use Rattle.command_words.specs.Given.{given_of, options_of, said_by};
ghost use Rattle.command_words.specs.Limits.{IsWithin};

use crate::options::Options;
use crate::reading::{Given, read};
use crate::values::{format, source, workers};

/// What is said by what words give.
fn said(given: Given<'_>) -> Option<Options<'_>>
    ensures said { option_map options_of result ≡ said_by (given_of given.entry) }
    ensures limits { IfSome result IsWithin }
{
    let workers = workers(given.workers)?;
    let format = format(given.format)?;
    let source = source(given.alone?)?;
    Some(Options {
        workers,
        format,
        decl: given.decl,
        source,
    })
}

/// What words say, if they are a command: the words behind a program's name.
pub fn command(words: &[String]) -> Option<Options<'_>>
    ensures said { option_map options_of result ≡ spec.command (map string_bytes words.now) }
    ensures limits { IfSome result IsWithin }
{
    match read(words) {
        Some(given) => said(given),
        None => None,
    }
}
