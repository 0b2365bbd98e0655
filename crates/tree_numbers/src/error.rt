use std::alloc::AllocError;
use thiserror::Error;

/// Why a tree has no numbers.
#[derive(Debug, Drop, Error)]
pub enum NumberError {
    #[error("out of memory")]
    NoMemory,
    /// More expressions or bodies than numbers below 2^32.
    #[error("too many expressions or functions")]
    NoNumber,
}

impl From<AllocError> for NumberError {
    fn from(_e: AllocError) -> NumberError {
        NumberError::NoMemory
    }
}
