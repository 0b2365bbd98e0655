ghost use Rattle.std.specs.Prelude.{◌≡◌, option_copied};
ghost use Rattle.nonstrict_cli.specs.Status.{code_of, word_of};

/// A limit that a folder passes.
#[derive(Clone, Copy, Debug, PartialEq, Eq)]
pub enum Limit {
    /// It has so many modules, more than 10,000.
    Files(u64),
    /// What is read of its modules, at most 1,048,577 bytes of each, passes 67,108,864 bytes: so
    /// many are read up to and including the first module with which it does.
    Bytes(u64),
}

/// How a run ends.
#[derive(Clone, Copy, Debug, PartialEq, Eq)]
pub enum Status {
    /// There is no line.
    Clean,
    /// There are reports, and each file is checked.
    Reports,
    /// Some file isn't checked.
    Refused,
    /// The words are no command. Nothing is written.
    Usage,
    /// The folder passes a limit. Nothing is written.
    TooLarge(Limit),
    /// The folder could not be read. Nothing is written.
    ReadFault,
    /// Memory ran out before the first write. Nothing is written.
    NoMemory,
    /// The output could not be written whole. What is written is a front of it.
    WriteFault,
}

impl Status {
    /// The exit status of the program.
    pub fn code(&self) -> u8
        ensures { result ≡ code_of self.now }
    {
        match self {
            Status::Clean => 0,
            Status::Reports => 1,
            Status::Refused => 2,
            Status::Usage => 64,
            Status::TooLarge(_) => 65,
            Status::ReadFault => 66,
            Status::NoMemory => 71,
            Status::WriteFault => 74,
        }
    }
    /// The word for standard error, where the status has one.
    pub fn word(&self) -> Option<&'static str>
        ensures { option_copied result ≡ word_of self.now }
    {
        match self {
            Status::Clean | Status::Reports | Status::Refused => None,
            Status::Usage => Some("usage"),
            Status::TooLarge(_) => Some("too large"),
            Status::ReadFault => Some("read fault"),
            Status::NoMemory => Some("no memory"),
            Status::WriteFault => Some("write fault"),
        }
    }
}
