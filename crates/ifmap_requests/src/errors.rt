//! Why a body is no request.
use ifmap_forms::FormError;
use ifmap_ident::Code;
use thiserror::Error;

/// Why a body is no request.
#[derive(Debug, Drop, Error)]
pub enum Refusal {
    /// It spells no envelope of one element, or nests too deep.
    #[error("the body is no envelope")]
    Unreadable,
    /// What is in the envelope has a defect, of which this code tells.
    #[error("the body is no request")]
    Named(Code),
    /// Want of memory.
    #[error("out of memory")]
    NoMemory,
}

impl From<FormError> for Refusal {
    ghost use Rattle.std.specs.Prelude.{◌≡◌};
    ghost use Rattle.ifmap_requests.specs.Answers.{as_refusal};

    ghost from_gives = { λ error e. e ≡ as_refusal error };

    fn from(error: FormError) -> Self {
        match error {
            FormError::Named(code) => Refusal::Named(code),
            FormError::NoMemory => Refusal::NoMemory,
        }
    }
}
