//! Who asks, and when.
use ifmap_io::Moment;
use ifmap_meta::ClientName;
use std::marker::Model;

/// Who asks, when, and which sessions have expired by then, though they still stand in the table.
#[derive(Drop)]
pub struct Asking<'a> {
    pub client: &'a ClientName,
    pub moment: Moment,
    pub ttl: u32,
    pub ended: &'a [u64],
}

impl<'a> Model for Asking<'a> {
    ghost use Rattle.ifmap_changes.specs.Between.{Asking};

    ghost Value = { Asking };

    ghost view = { λ a. record {
      client = a.client.now;
      moment = a.moment;
      ttl = a.ttl;
      ended = a.ended.now;
    } };
}
