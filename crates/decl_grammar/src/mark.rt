/// What stands before a declaration, behind an `@`.
#[derive(Clone, Copy, Debug, PartialEq, Eq)]
pub enum Mark {
    /// `checked`: the builtin fails on arguments that aren't in its declaration.
    Checked,
    /// `quiet`: the builtin writes no field of a table that was there, and calls nothing.
    Quiet,
}
