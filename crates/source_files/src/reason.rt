ghost use Rattle.std.specs.Prelude.{◌≡◌};
ghost use Rattle.source_files.specs.Profile.{profile_text};
ghost use Rattle.source_files.specs.Reason.{reason_text};

use luau_scope::Refusal;

/// Why a file isn't checked.
#[derive(Clone, Copy, Debug, PartialEq, Eq)]
pub enum Reason {
    /// It has more than 1,048,576 bytes.
    FileTooLarge,
    /// It stands for its folder.
    DirectoryModule,
    /// Another file has its module name.
    RepeatedName,
    /// A string has no end.
    UnfinishedString,
    /// A comment has no end.
    UnfinishedComment,
    /// An escape is malformed.
    BadEscape,
    /// What begins like a numeral isn't one.
    BadNumeral,
    /// A byte begins no token.
    StrayByte,
    /// Two braces stand directly behind one another in an interpolated string.
    DoubleBrace,
    /// A token goes on with nothing that stands before it.
    UnexpectedToken,
    /// The text ends too early.
    UnexpectedEnd,
    /// Arguments would begin on a later line than the one on which what they stand behind ends.
    AmbiguousCall,
    /// A token stands at a level above 200.
    Nesting,
    /// The profile refuses it.
    Profile(Refusal),
    /// A static require means no module of the folder.
    MissingModule,
    /// It reaches itself by requires.
    RequireCycle,
}

impl Reason {
    /// The reason as it is told.
    pub fn text(self) -> &'static str
        ensures { result.now ≡ reason_text self }
    {
        match self {
            Reason::FileTooLarge => "file too large",
            Reason::DirectoryModule => "directory module",
            Reason::RepeatedName => "repeated module name",
            Reason::UnfinishedString => "unfinished string",
            Reason::UnfinishedComment => "unfinished comment",
            Reason::BadEscape => "bad escape",
            Reason::BadNumeral => "bad numeral",
            Reason::StrayByte => "stray byte",
            Reason::DoubleBrace => "interpolation brace",
            Reason::UnexpectedToken => "unexpected token",
            Reason::UnexpectedEnd => "unexpected end",
            Reason::AmbiguousCall => "ambiguous call",
            Reason::Nesting => "nesting",
            Reason::Profile(why) => profile_text(why),
            Reason::MissingModule => "missing module",
            Reason::RequireCycle => "require cycle",
        }
    }
}

/// What the profile refuses a module for, as it is told.
fn profile_text(why: Refusal) -> &'static str
    ensures { result.now ≡ profile_text why }
{
    match why {
        Refusal::Metatable => "metatable",
        Refusal::Coroutine => "coroutine",
        Refusal::Environment => "environment",
        Refusal::DynamicRequire => "dynamic require",
        Refusal::TypeFunction => "type function",
        Refusal::GenericPack => "generic pack",
        Refusal::AssignedBuiltin => "assigned builtin",
        Refusal::RepeatedTarget => "repeated target",
        Refusal::TooManyLocals => "too many locals",
        Refusal::BreakOutsideLoop => "break outside loop",
        Refusal::ContinueOutsideLoop => "continue outside loop",
        Refusal::ContinuePastLocal => "continue past local",
        Refusal::VarargOutside => "vararg outside",
    }
}
