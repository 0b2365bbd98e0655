ghost use Rattle.std.specs.Prelude.{◌≡◌};
ghost use Rattle.luau_lex.specs.declared.token.LexError.TheVariants.{NoMemory};

use luau_tree::Span;
use std::alloc::{AllocError, AllocFailed};
use thiserror::Error;

/// What a token is.
#[derive(Clone, Copy, Debug, PartialEq, Eq)]
pub enum Kind {
    /// A name that isn't reserved.
    Name,
    /// A reserved name.
    Word,
    Numeral,
    /// A string between quotes.
    Quoted,
    /// A string between long brackets.
    Long,
    /// An interpolated string without a brace.
    Whole,
    /// An interpolated string from its backquote through its first brace.
    Begin,
    /// What stands between two parts in braces, with both braces.
    Mid,
    /// What stands after the last part in braces, from the brace through the backquote.
    End,
    Sign,
}

/// A token of a text: what it is, where it stands, and its bytes.
#[derive(Clone, Copy, Debug)]
pub struct Token<'s> {
    pub kind: Kind,
    /// The offsets of its first byte and of what follows it.
    pub span: Span,
    /// The text at `span`.
    pub text: &'s [u8],
}

/// Why a text has no tokens. The number is the offset of the fault, the first in the text.
#[derive(Debug, Drop, Error)]
pub enum LexError {
    /// A string has no end; at its first byte.
    #[error("unfinished string at {0}")]
    UnfinishedString(u32),
    /// A comment in long brackets has no end; at its first byte.
    #[error("unfinished comment at {0}")]
    UnfinishedComment(u32),
    /// An escape is malformed; at its backslash.
    #[error("bad escape at {0}")]
    BadEscape(u32),
    /// What begins like a numeral isn't one; at its first byte.
    #[error("bad numeral at {0}")]
    BadNumeral(u32),
    /// A byte that no token begins with.
    #[error("stray byte at {0}")]
    StrayByte(u32),
    /// Two braces stand directly behind one another in an interpolated string; at the first.
    #[error("double brace at {0}")]
    DoubleBrace(u32),
    #[error("out of memory")]
    NoMemory,
}

impl From<AllocError> for LexError {
    ghost from_gives = { λ _ e. e ≡ NoMemory };

    fn from(_e: AllocError) -> LexError {
        LexError::NoMemory
    }
}

impl<T: Drop> From<AllocFailed<T>> for LexError {
    ghost from_gives = { λ _ e. e ≡ NoMemory };

    fn from(_e: AllocFailed<T>) -> LexError {
        LexError::NoMemory
    }
}
