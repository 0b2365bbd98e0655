/// How lines are written.
#[derive(Clone, Copy, Debug, PartialEq, Eq)]
pub enum Format {
    /// As text.
    Text,
    /// Each as an object of JSON.
    Json,
}

/// What is checked.
#[derive(Clone, Copy, Debug, PartialEq, Eq)]
pub enum Source<'a> {
    /// A folder.
    Folder(&'a str),
    /// The sample of so many modules, from 1 to 10,000.
    Sample(u32),
}

/// What a command says.
#[derive(Clone, Copy, Debug, PartialEq, Eq)]
pub struct Options<'a> {
    /// How many workers there are, from 1 to 64.
    pub workers: u32,
    /// How lines are written.
    pub format: Format,
    /// The declaration file, if one is named.
    pub decl: Option<&'a str>,
    /// What is checked.
    pub source: Source<'a>,
}
