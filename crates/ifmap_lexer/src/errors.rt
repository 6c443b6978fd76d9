//! Why no token was read.
ghost use Rattle.std.specs.Prelude.{◌≡◌};

use std::alloc::{AllocError as NoMemory, AllocFailed};
use thiserror::Error;

/// Why no token was read.
#[derive(Debug, Drop, Error)]
pub enum LexError {
    #[error("no token stands here")]
    Malformed,
    /// Want of memory.
    #[error("out of memory")]
    NoMemory,
}

impl From<NoMemory> for LexError {
    ghost use Rattle.ifmap_lexer.specs.declared.errors.LexError.TheVariants.{NoMemory};

    ghost from_gives = { λ _ e. e ≡ NoMemory };

    fn from(_: NoMemory) -> Self {
        LexError::NoMemory
    }
}

impl<T: Drop> From<AllocFailed<T>> for LexError {
    ghost use Rattle.ifmap_lexer.specs.declared.errors.LexError.TheVariants.{NoMemory};

    ghost from_gives = { λ _ e. e ≡ NoMemory };

    fn from(_: AllocFailed<T>) -> Self {
        LexError::NoMemory
    }
}
