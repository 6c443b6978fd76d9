//! How the program ends, its statuses, and what is told of each.
ghost use Rattle.std.specs.Prelude.{◌≡◌};
ghost use Rattle.mapc.specs.Statuses.{script_status, end_status};

use ifmap_client_script::Outcome;
use ifmap_io::statuses::{
    BAD_REPLY, DONE, LINK_ENDED, LINK_FAULT, NO_MEMORY, READ_FAULT, SCRIPT_FAULT, USAGE,
    WRITE_FAULT,
};
use std::fmt;

/// How the program ends.
#[derive(Clone, Copy, Debug, PartialEq, Eq)]
pub enum End {
    /// The words ask for no destination.
    Usage,
    /// A connection could not be made.
    NoConnection,
    /// So the script ended.
    Script(Outcome),
}

/// The status of an end.
pub fn status_of(end: End) -> u8
    ensures { result ≡ end_status end }
{
    match end {
        End::Usage => USAGE,
        End::NoConnection => LINK_FAULT,
        End::Script(outcome) => script_status(outcome),
    }
}

// The status of a script's outcome.
fn script_status(outcome: Outcome) -> u8
    ensures { result ≡ script_status outcome }
{
    match outcome {
        Outcome::Done => DONE,
        Outcome::BadLine { line: _ } => SCRIPT_FAULT,
        Outcome::ReadFault => READ_FAULT,
        Outcome::WriteFault => WRITE_FAULT,
        Outcome::NoMemory => NO_MEMORY,
        Outcome::LinkFault => LINK_FAULT,
        Outcome::LinkEnded { line: _ } => LINK_ENDED,
        Outcome::BadReply { line: _ } => BAD_REPLY,
    }
}

impl fmt::Display for End {
    fn fmt<W: fmt::Write>(&self, f: &mut fmt::Formatter<W>) -> fmt::Result {
        match self {
            End::Usage => f.write_str("usage: mapc ADDRESS NAME"),
            End::NoConnection => f.write_str("mapc: no connection to that address"),
            End::Script(outcome) => write_outcome(*outcome, f),
        }
    }
}

fn write_outcome<W: fmt::Write>(outcome: Outcome, f: &mut fmt::Formatter<W>) -> fmt::Result {
    match outcome {
        Outcome::Done => f.write_str("mapc: done"),
        Outcome::BadLine { line } => write!(f, "mapc: line {line}: not a line of a script"),
        Outcome::ReadFault => f.write_str("mapc: the script could not be read"),
        Outcome::WriteFault => f.write_str("mapc: the output could not be written"),
        Outcome::NoMemory => f.write_str("mapc: out of memory"),
        Outcome::LinkFault => f.write_str("mapc: a connection failed"),
        Outcome::LinkEnded { line } => write!(f, "mapc: line {line}: the connection ended"),
        Outcome::BadReply { line } => write!(f, "mapc: line {line}: the answer is no reply"),
    }
}
