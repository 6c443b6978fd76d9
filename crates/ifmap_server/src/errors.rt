//! Why a replay ends before its source does.
ghost use Rattle.std.specs.Prelude.{◌≡◌};
ghost use Rattle.ifmap_server.specs.Statuses.{status_of};
ghost use Rattle.ifmap_server.specs.declared.errors.ReplayError.TheVariants.{NoMemory};

use ifmap_io::statuses::{DONE, NO_MEMORY, READ_FAULT, SCRIPT_FAULT, WRITE_FAULT};
use std::alloc::AllocError as NoMemory;

/// Why a replay ends before its source does.
#[derive(Clone, Copy, Debug, PartialEq, Eq)]
pub enum ReplayError {
    /// No frame begins where one is due, or the frame is cut or too long.
    FrameFault,
    /// A read failed.
    ReadFault,
    /// A write failed.
    WriteFault,
    /// Want of memory.
    NoMemory,
}

impl From<NoMemory> for ReplayError {
    ghost from_gives = { λ _ e. e ≡ NoMemory };

    fn from(_error: NoMemory) -> ReplayError {
        ReplayError::NoMemory
    }
}

/// The status that tells how a replay ended.
pub fn status_of(ended: Result<(), ReplayError>) -> u8
    ensures { result ≡ status_of ended }
{
    match ended {
        Ok(()) => DONE,
        Err(ReplayError::FrameFault) => SCRIPT_FAULT,
        Err(ReplayError::ReadFault) => READ_FAULT,
        Err(ReplayError::WriteFault) => WRITE_FAULT,
        Err(ReplayError::NoMemory) => NO_MEMORY,
    }
}
