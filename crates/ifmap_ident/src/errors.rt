//! Why an element is no identifier.
use std::alloc::{AllocError as NoMemory, AllocFailed};
use thiserror::Error;

/// Why no identifier was made from an element.
#[derive(Debug, Drop, Error)]
pub enum IdentError {
    /// The element is of none of the five kinds.
    #[error("the element is no identifier")]
    WrongKind,
    /// The element lacks a part, or has one that is not of its form.
    #[error("the identifier lacks a part or has one that is not of its form")]
    Invalid,
    /// The identifier has more than 4,096 canonical bytes.
    #[error("the identifier has more than 4096 canonical bytes")]
    TooLong,
    /// Want of memory.
    #[error("out of memory")]
    NoMemory,
}

impl From<NoMemory> for IdentError {
    ghost use Rattle.std.specs.Prelude.{◌≡◌};
    ghost use Rattle.ifmap_ident.specs.declared.errors.IdentError.TheVariants.{NoMemory};

    ghost from_gives = { λ _ e. e ≡ NoMemory };

    fn from(_: NoMemory) -> Self {
        IdentError::NoMemory
    }
}

impl<T: Drop> From<AllocFailed<T>> for IdentError {
    ghost use Rattle.std.specs.Prelude.{◌≡◌};
    ghost use Rattle.ifmap_ident.specs.declared.errors.IdentError.TheVariants.{NoMemory};

    ghost from_gives = { λ _ e. e ≡ NoMemory };

    fn from(_: AllocFailed<T>) -> Self {
        IdentError::NoMemory
    }
}
