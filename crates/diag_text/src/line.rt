use luau_tree::{Bytes, Pos};

/// What a line tells, in the order in which lines at one place are written.
#[derive(Clone, Copy, Debug, PartialEq, Eq, PartialOrd, Ord)]
pub enum LineKind {
    /// The file isn't checked; the message begins with `refused: `.
    Refused,
    /// The file isn't checked, since one that it requires isn't; the message begins with `skipped: `.
    Skipped,
    /// An argument of a call always fails.
    Argument,
    /// An argument that a call needs is missing.
    Missing,
    /// An operand always fails.
    Operand,
    /// The value of a local always fails where it is used.
    Value,
    /// Whatever a parameter is given, the body always fails.
    Parameter,
}

/// One line of output: the file's path, a place in it, and a message. Lines are equal as their parts are, and
/// are ordered by path, place, kind and message.
#[derive(Debug, Drop, PartialEq, Eq, PartialOrd, Ord)]
pub struct Line {
    /// The file's path in its folder, as bytes.
    pub path: Bytes,
    /// The place in the file: line and column from 1, the column in bytes.
    pub at: Pos,
    /// What the line tells.
    pub kind: LineKind,
    /// The message, as bytes, without a line feed at its end.
    pub message: Bytes,
}

#[cfg(test)]
pub mod tests {
    use super::*;
    use std::alloc::{AllocError, Global};

    /// The line with these parts.
    pub fn line(
        alloc: Global,
        path: &str,
        place: (u32, u32),
        kind: LineKind,
        message: &str,
    ) -> Result<Line, AllocError> {
        Ok(Line {
            path: Bytes::of(Vec::from_slice(alloc, path.as_bytes())?),
            at: Pos {
                line: place.0,
                column: place.1,
            },
            kind,
            message: Bytes::of(Vec::from_slice(alloc, message.as_bytes())?),
        })
    }
}
