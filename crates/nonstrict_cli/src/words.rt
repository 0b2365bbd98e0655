//! The words of a command.
ghost use Rattle.std.specs.Prelude.{◌≡◌, map, option_copied, string_bytes};
ghost use Rattle.nonstrict_cli.specs.Command.{command, is_folder};

fn is_folder(word: &str) -> bool
    ensures { result ≡ is_folder word.now }
{
    let bytes = word.as_bytes();
    !bytes.is_empty() && !bytes.starts_with(b"-") && !bytes.starts_with(b"sample:")
}

/// The folder that the words name, where they are a command: one word that isn't empty and begins
/// neither with `-` nor with `sample:`.
pub(crate) fn folder_of(words: &[String]) -> Option<&str>
    ensures { option_copied result ≡ command (map string_bytes words.now) }
{
    match words {
        [word] if is_folder(word.as_str()) => Some(word.as_str()),
        _ => None,
    }
}
