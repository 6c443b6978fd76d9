//! Events, which the machine answers one after another.
use ifmap_elem::Text;
use ifmap_io::Moment;
use ifmap_meta::ClientName;
use ifmap_publish::Request;
use ifmap_replies::Reply;
use std::marker::Model;

/// What is asked of the machine.
#[derive(Debug, Drop)]
pub enum Ask {
    /// A request of the event's client.
    Request(Request),
    /// The end of the client's session with this id: an answer to a poll in it was taken and could not
    /// be written whole.
    Lost(Text),
}

/// One event: what is asked, with all that its answer depends on beside the state. What is asked is
/// fit: what it publishes can be published, and its identifiers and texts are ones that a document can
/// have.
#[derive(Debug, Drop)]
pub struct Event {
    /// When the request came. Where the state's moment is later, that one stands.
    pub moment: Moment,
    /// Who asks.
    pub client: ClientName,
    /// A word of 128 random bits, for a session id.
    pub random: u128,
    /// Whether a poll that was held is asked again.
    pub again: bool,
    /// The length of the body that the request came in, in bytes; 0 where an answer was lost.
    pub bytes: u32,
    /// What is asked.
    pub ask: Ask,
}

impl Model for Event {
    ghost use Rattle.ifmap_machine.specs.contracts.events.Ask as the_ask;
    ghost use Rattle.std.specs.Coded.{codes};
    ghost use Rattle.ifmap_machine.specs.Events as events;

    ghost Value = { events.Event };

    ghost coded = { Prim.hlevel (codes, the_ask.the_row.coded) };

    ghost view = { λ event. record {
      moment = event.moment;
      client = event.client;
      random = event.random;
      again = event.again;
      bytes = event.bytes;
      ask = event.ask;
    } };

    ghost invariant = { λ event. events.IsFitEvent record {
      moment = event.moment;
      client = event.client;
      random = event.random;
      again = event.again;
      bytes = event.bytes;
      ask = event.ask;
    } };
}

/// The answer to an event.
#[derive(Debug, Drop)]
pub enum Answer {
    /// What is sent to the client, also where it is a refusal.
    Reply(Reply),
    /// Nothing is sent yet: there is nothing to tell to the poll.
    Held,
    /// That an answer was lost was heard.
    Heard,
}
