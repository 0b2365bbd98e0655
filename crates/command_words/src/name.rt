ghost use Rattle.std.specs.Prelude.{◌≡◌};
ghost use Rattle.command_words.specs.Command.{option_of};

/// An option of a command.
#[derive(Clone, Copy, Debug, PartialEq, Eq)]
pub(crate) enum Name {
    /// How many workers there are.
    Workers,
    /// How lines are written.
    Format,
    /// The declaration file.
    Decl,
}

impl Name {
    /// The option that a text names.
    pub(crate) fn of(text: &str) -> Option<Name>
        ensures { result ≡ option_of text.now }
    {
        if text == "--workers" {
            Some(Name::Workers)
        } else if text == "--format" {
            Some(Name::Format)
        } else if text == "--decl" {
            Some(Name::Decl)
        } else {
            None
        }
    }
}
