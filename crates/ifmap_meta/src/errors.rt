//! Why an element is no metadata.
use std::alloc::{AllocError as NoMemory, AllocFailed};
use thiserror::Error;

/// Why an element cannot be published.
#[derive(Debug, Drop, Error)]
pub enum MetaError {
    /// It does not say how many elements of its type an item can carry.
    #[error("the element has no ifmap-cardinality of singleValue or multiValue")]
    Invalid,
    /// Its content is longer than 100,000 canonical bytes.
    #[error("the content of the element is too long")]
    TooLong,
    /// Want of memory.
    #[error("out of memory")]
    NoMemory,
}

impl From<NoMemory> for MetaError {
    ghost use Rattle.std.specs.Prelude.{◌≡◌};
    ghost use Rattle.ifmap_meta.specs.declared.errors.MetaError.TheVariants.{NoMemory};

    ghost from_gives = { λ _ e. e ≡ NoMemory };

    fn from(_: NoMemory) -> Self {
        MetaError::NoMemory
    }
}

impl<T: Drop> From<AllocFailed<T>> for MetaError {
    ghost use Rattle.std.specs.Prelude.{◌≡◌};
    ghost use Rattle.ifmap_meta.specs.declared.errors.MetaError.TheVariants.{NoMemory};

    ghost from_gives = { λ _ e. e ≡ NoMemory };

    fn from(_: AllocFailed<T>) -> Self {
        MetaError::NoMemory
    }
}
