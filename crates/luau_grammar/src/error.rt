ghost use Rattle.std.specs.Prelude.{◌≡◌};
ghost use Rattle.luau_grammar.specs.declared.error.ParseError.TheVariants.{NoMemory};

use luau_lex::LexError;
use std::alloc::{AllocError, AllocFailed};
use thiserror::Error;

/// Why a text is no module. The number is the offset of the fault.
#[derive(Debug, Drop, Error)]
pub enum ParseError {
    /// The text has no tokens.
    #[error("{0}")]
    Lex(LexError),
    /// The first token after which no continuation is a module.
    #[error("unexpected token at {0}")]
    Unexpected(u32),
    /// The tokens begin a module and are none; the length of the text.
    #[error("unexpected end at {0}")]
    UnexpectedEnd(u32),
    /// A `(` that would begin arguments stands on a later line than the end of the token before it.
    #[error("ambiguous call at {0}")]
    AmbiguousCall(u32),
    /// The first token at a level above 200.
    #[error("nesting too deep at {0}")]
    Nesting(u32),
    #[error("out of memory")]
    NoMemory,
}

impl From<AllocError> for ParseError {
    ghost from_gives = { λ _ e. e ≡ NoMemory };

    fn from(_e: AllocError) -> ParseError {
        ParseError::NoMemory
    }
}

impl<T: Drop> From<AllocFailed<T>> for ParseError {
    ghost from_gives = { λ _ e. e ≡ NoMemory };

    fn from(_e: AllocFailed<T>) -> ParseError {
        ParseError::NoMemory
    }
}
