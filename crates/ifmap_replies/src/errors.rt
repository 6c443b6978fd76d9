//! Why there is no reply.
use ifmap_forms::FormError;
use std::alloc::{AllocError as NoMemory, AllocFailed};
use thiserror::Error;

/// Why an element or a body is no reply.
#[derive(Debug, Drop, Error)]
pub enum ReplyError {
    /// It is no envelope of a response with one of the results of the protocol, or nests too deep.
    #[error("this is no reply")]
    NotAReply,
    /// Want of memory.
    #[error("out of memory")]
    NoMemory,
}

impl From<NoMemory> for ReplyError {
    ghost use Rattle.std.specs.Prelude.{◌≡◌};
    ghost use Rattle.ifmap_replies.specs.declared.errors.ReplyError.TheVariants.{NoMemory};

    ghost from_gives = { λ _ e. e ≡ NoMemory };

    fn from(_: NoMemory) -> Self {
        ReplyError::NoMemory
    }
}

impl<T: Drop> From<AllocFailed<T>> for ReplyError {
    ghost use Rattle.std.specs.Prelude.{◌≡◌};
    ghost use Rattle.ifmap_replies.specs.declared.errors.ReplyError.TheVariants.{NoMemory};

    ghost from_gives = { λ _ e. e ≡ NoMemory };

    fn from(_: AllocFailed<T>) -> Self {
        ReplyError::NoMemory
    }
}

impl From<FormError> for ReplyError {
    ghost use Rattle.std.specs.Prelude.{◌≡◌};
    ghost use Rattle.ifmap_replies.specs.Answers.{as_reply_error};

    ghost from_gives = { λ error e. e ≡ as_reply_error error };

    fn from(error: FormError) -> Self {
        match error {
            FormError::Named(_) => ReplyError::NotAReply,
            FormError::NoMemory => ReplyError::NoMemory,
        }
    }
}
