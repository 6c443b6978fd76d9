//! What a test finds wrong.
use std::alloc::AllocError as NoMemory;

// What was not as it is to be.
#[derive(Clone, Copy)]
pub(crate) enum Fault {
    NoMemory,
    Unread,
    TooBig,
    Deleted,
    Updated,
    Size,
    Marks,
    Back,
    Rows,
}

impl From<NoMemory> for Fault {
    fn from(_error: NoMemory) -> Fault {
        Fault::NoMemory
    }
}

impl Fault {
    // A fault in words.
    pub(crate) fn text(self) -> &'static str {
        match self {
            Fault::NoMemory => "memory ran out",
            Fault::Unread => "a text of the test was not read",
            Fault::TooBig => "the result is too big",
            Fault::Deleted => "what goes",
            Fault::Updated => "what comes",
            Fault::Size => "the size after a change",
            Fault::Marks => "the marks after a change",
            Fault::Back => "the marks or the size after a way back",
            Fault::Rows => "a row without a mark is left",
        }
    }
}

// A fault where something does not hold.
pub(crate) fn fault_unless(holds: bool, fault: Fault) -> Result<(), Fault> {
    if holds { Ok(()) } else { Err(fault) }
}
