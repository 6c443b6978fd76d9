//! Why nothing was read.
use std::alloc::{AllocError as NoMemory, AllocFailed};
use thiserror::Error;

/// Why bytes are not read as an element.
#[derive(Debug, Drop, Error)]
pub enum ReadError {
    /// No element is spelled: no token that is allowed stands at this byte, or the input ends there.
    #[error("no element is spelled: byte {at} begins nothing that is allowed there")]
    Unreadable { at: u64 },
    /// The tag at this byte opens a level too many.
    #[error("the tag at byte {at} nests too deep")]
    TooDeep { at: u64 },
    /// Want of memory.
    #[error("out of memory")]
    NoMemory,
}

// Why a reader does not go on with a token.
#[derive(Debug, Drop)]
pub(crate) enum TokenRefusal {
    NotAllowed,
    TooDeep,
    NoMemory,
}

impl From<NoMemory> for TokenRefusal {
    ghost use Rattle.std.specs.Prelude.{◌≡◌};
    ghost use Rattle.ifmap_reader.specs.declared.errors.TokenRefusal.TheVariants.{NoMemory};

    ghost from_gives = { λ _ e. e ≡ NoMemory };

    fn from(_: NoMemory) -> Self {
        TokenRefusal::NoMemory
    }
}

impl<T: Drop> From<AllocFailed<T>> for TokenRefusal {
    ghost use Rattle.std.specs.Prelude.{◌≡◌};
    ghost use Rattle.ifmap_reader.specs.declared.errors.TokenRefusal.TheVariants.{NoMemory};

    ghost from_gives = { λ _ e. e ≡ NoMemory };

    fn from(_: AllocFailed<T>) -> Self {
        TokenRefusal::NoMemory
    }
}
