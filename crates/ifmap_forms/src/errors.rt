//! Why an element is no part of a message.
use ifmap_ident::{Code, IdentError};
use std::alloc::{AllocError as NoMemory, AllocFailed};
use thiserror::Error;

/// Why an element is no part of a message.
#[derive(Debug, Drop, Error)]
pub enum FormError {
    /// It has a defect, and this is its code: that of the first, where there are several.
    #[error("the element is of no form that a message has")]
    Named(Code),
    /// Want of memory. It is answered too where a child has an index that no path can have, which
    /// is 2^32 or more.
    #[error("out of memory")]
    NoMemory,
}

impl From<NoMemory> for FormError {
    ghost use Rattle.std.specs.Prelude.{◌≡◌};
    ghost use Rattle.ifmap_forms.specs.declared.errors.FormError.TheVariants.{NoMemory};

    ghost from_gives = { λ _ e. e ≡ NoMemory };

    fn from(_: NoMemory) -> Self {
        FormError::NoMemory
    }
}

impl<T: Drop> From<AllocFailed<T>> for FormError {
    ghost use Rattle.std.specs.Prelude.{◌≡◌};
    ghost use Rattle.ifmap_forms.specs.declared.errors.FormError.TheVariants.{NoMemory};

    ghost from_gives = { λ _ e. e ≡ NoMemory };

    fn from(_: AllocFailed<T>) -> Self {
        FormError::NoMemory
    }
}
