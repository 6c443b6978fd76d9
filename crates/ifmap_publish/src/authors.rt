//! Who publishes.

use ifmap_io::Moment;
use ifmap_meta::ClientName;
use std::marker::Model;

/// Who publishes, in the session of which serial, and at which moment.
#[derive(Drop)]
pub struct Author<'a> {
    pub client: &'a ClientName,
    pub serial: u64,
    pub moment: Moment,
}

impl<'a> Model for Author<'a> {
    ghost use Rattle.ifmap_publish.specs.Apply.{Authorship};

    ghost Value = { Authorship };

    ghost view = { λ a. record { client = a.client.now; serial = a.serial; moment = a.moment } };
}
