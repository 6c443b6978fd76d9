//! Sessions that are ready to begin.
ghost use Rattle.std.specs.Prelude.{◌≡◌};

use ifmap_elem::Text;
use ifmap_meta::ClientName;
use std::marker::Model;

/// A session that began.
#[derive(Debug, Drop)]
pub struct Begun {
    /// Its number, counted from 1 over all sessions that were begun; no other has it.
    pub serial: u64,
    /// The id that its client is told, and names it by: the serial in decimal, a hyphen, and the
    /// random word as the text of a UUID in lower case.
    pub id: Text,
}

/// A session that is ready to begin, with all the memory that it takes. Contracts see its serial,
/// its id and the name of its client.
#[derive(Drop)]
pub struct Opening {
    pub(crate) serial: u64,
    // The id that the session keeps, and the one that is told.
    pub(crate) id: Text,
    pub(crate) told: Text,
    // The name that the session keeps, and the one by which it is found.
    pub(crate) client: ClientName,
    pub(crate) holder: ClientName,
}

impl Model for Opening {
    ghost use Rattle.std.specs.Prelude.{◌≡◌};
    ghost use Rattle.ifmap_session.specs.Openings.{IsReadyToBegin};
    ghost use Rattle.ifmap_session.specs.Sessions.{Opening};

    ghost Value = { Opening };

    ghost view = { λ o. record { serial = o.serial; id = o.id; client = o.client } };

    ghost invariant = { λ o. IsReadyToBegin o.serial o.id o.told o.client o.holder };
}

impl Opening {
    /// The id that the session is to have.
    pub fn id(&self) -> &Text
        ensures { result.now ≡ self.now.id }
    {
        &self.id
    }
}
