//! How a client's script ends.
ghost use Rattle.std.specs.Prelude.{◌≡◌};
ghost use Rattle.ifmap_client_script.specs.ScriptFailures.{script_outcome};

use std::alloc::AllocError as NoMemory;

/// How a script ended. Lines count from 1.
#[derive(Clone, Copy, Debug, PartialEq, Eq)]
pub enum Outcome {
    /// The source was read to its end, and every line was carried out.
    Done,
    /// The line is of no form, or would end past 2^32 bytes, or names the session that was begun last
    /// where none was.
    BadLine { line: u64 },
    /// A read of the script failed.
    ReadFault,
    /// A write of what is printed failed.
    WriteFault,
    /// A read or a write of a link failed.
    LinkFault,
    /// A link ended before the answer to that line was whole.
    LinkEnded { line: u64 },
    /// The answer to that line was none of HTTP, had another status than 200, or had a body that is no
    /// reply.
    BadReply { line: u64 },
    /// Want of memory.
    NoMemory,
}

/// Why no further line is carried out.
#[derive(Clone, Copy, Debug, PartialEq, Eq)]
pub enum ScriptFailure {
    BadLine,
    ReadFault,
    WriteFault,
    LinkFault,
    LinkEnded,
    BadReply,
    /// Want of memory.
    NoMemory,
}

impl From<NoMemory> for ScriptFailure {
    ghost use Rattle.std.specs.Prelude.{◌≡◌};
    ghost use Rattle.ifmap_client_script.specs.declared.outcomes.ScriptFailure.TheVariants.{NoMemory};

    ghost from_gives = { λ _ e. e ≡ NoMemory };

    fn from(_error: NoMemory) -> ScriptFailure {
        ScriptFailure::NoMemory
    }
}

// How a script ends that stops at that line.
pub(crate) fn outcome_at_line(failure: ScriptFailure, line: u64) -> Outcome
    ensures { result ≡ script_outcome failure line }
{
    match failure {
        ScriptFailure::BadLine => Outcome::BadLine { line },
        ScriptFailure::ReadFault => Outcome::ReadFault,
        ScriptFailure::WriteFault => Outcome::WriteFault,
        ScriptFailure::LinkFault => Outcome::LinkFault,
        ScriptFailure::LinkEnded => Outcome::LinkEnded { line },
        ScriptFailure::BadReply => Outcome::BadReply { line },
        ScriptFailure::NoMemory => Outcome::NoMemory,
    }
}
