use crate::token::{Kind, LexError};

/// A piece of a text, what stands at a place: blanks or a comment, a token, or the fault of what
/// begins there.
#[derive(Debug, Drop)]
pub enum Piece {
    /// Blanks or a comment, of so many bytes.
    Gap(usize),
    /// A token of so many bytes.
    Found(Kind, usize),
    /// What begins here is no token.
    Faulty(LexError),
}

/// A brace that is open.
#[derive(Clone, Copy, Debug)]
pub enum Open {
    /// A brace that is a sign.
    Brace,
    /// The brace of an interpolated string that begins at this offset.
    Part(u32),
}
