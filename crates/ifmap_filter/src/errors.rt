//! Why no filter was read.
use std::alloc::{AllocError as NoMemory, AllocFailed};
use thiserror::Error;

/// Why a text is not read as a filter.
#[derive(Debug, Drop, Error)]
pub enum FilterError {
    /// The text is no filter: the token at this byte of its UTF-8, counted from 0, is not allowed
    /// after those before it, no token stands there, or the text ends there too soon.
    #[error("no filter: byte {at} begins nothing that is allowed there")]
    NotAFilter { at: u64 },
    /// Want of memory.
    #[error("out of memory")]
    NoMemory,
}

impl From<NoMemory> for FilterError {
    ghost use Rattle.std.specs.Prelude.{◌≡◌};
    ghost use Rattle.ifmap_filter.specs.declared.errors.FilterError.TheVariants.{NoMemory};

    ghost from_gives = { λ _ e. e ≡ NoMemory };

    fn from(_: NoMemory) -> Self {
        FilterError::NoMemory
    }
}

impl<T: Drop> From<AllocFailed<T>> for FilterError {
    ghost use Rattle.std.specs.Prelude.{◌≡◌};
    ghost use Rattle.ifmap_filter.specs.declared.errors.FilterError.TheVariants.{NoMemory};

    ghost from_gives = { λ _ e. e ≡ NoMemory };

    fn from(_: AllocFailed<T>) -> Self {
        FilterError::NoMemory
    }
}
