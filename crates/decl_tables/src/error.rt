ghost use Rattle.std.specs.Prelude.{◌≡◌};
ghost use Rattle.decl_tables.specs.declared.error.DeclError.TheVariants.{NoMemory};

use luau_grammar::ParseError;
use std::alloc::{AllocError, AllocFailed};
use thiserror::Error;

/// Why a text is no declaration file. The number is the offset of the path of a declaration.
#[derive(Debug, Drop, Error)]
pub enum DeclError {
    /// The text isn't in the grammar of declaration files.
    #[error("{0}")]
    Parse(ParseError),
    /// The first path that is declared before, where none before it has a bad form.
    #[error("repeated name at {0}")]
    RepeatedName(u32),
    /// The first path that stands behind a mark twice, is `require` or begins with `require.`, or is the library of another
    /// path of the file, where none before it is repeated.
    #[error("bad form at {0}")]
    BadForm(u32),
    #[error("out of memory")]
    NoMemory,
}

impl From<AllocError> for DeclError {
    ghost from_gives = { λ _ e. e ≡ NoMemory };

    fn from(_e: AllocError) -> DeclError {
        DeclError::NoMemory
    }
}

impl<T: Drop> From<AllocFailed<T>> for DeclError {
    ghost from_gives = { λ _ e. e ≡ NoMemory };

    fn from(_e: AllocFailed<T>) -> DeclError {
        DeclError::NoMemory
    }
}
