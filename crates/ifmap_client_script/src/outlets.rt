//! Where a script prints, and over which wires it asks.
ghost use Rattle.ifmap_http.specs.Wires.{wire_seen};
ghost use Rattle.ifmap_client_script.specs.Ends.{Ports, ports};
ghost use Rattle.ifmap_client_script.specs.Outlets.{AreOutletsLater, CanAsk, IsAsked, Loans, Prints};
ghost use Rattle.ifmap_client_script.specs.Printing.{body_text};

use crate::exchanges::{Caller, ReadReply, ask};
use crate::outcomes::ScriptFailure;
use crate::requests::is_poll;
use crate::sending::{send, send_body};
use ifmap_elem::Many;
use ifmap_http::Wire;
use ifmap_io::{Link, Sink};
use ifmap_requests::Request;
use std::alloc::Global;

/// A sink for what is printed and two wires for what is asked, of which the second is for polls.
pub trait Outlets {
    /// What contracts see of them.
    ghost seen: { Self → Ports };

    /// The names of their borrows, which no call changes.
    ghost loans: { Self → Loans };

    /// Sends a request over its wire, and takes the answer to it.
    fn ask(
        &mut self,
        alloc: Global,
        caller: &Caller,
        sent: &Request,
    ) -> Result<ReadReply, ScriptFailure>
        requires { CanAsk caller.now (seen self.old) }
        ensures asks { IsAsked caller.now sent.now (seen self.old) (seen self.new) result }
        ensures later { AreOutletsLater seen loans self.old self.new };

    /// Writes a text, and hands it on.
    fn print(&mut self, text: &[u8]) -> Result<(), ScriptFailure>
        ensures prints { Prints text.now (seen self.old) (seen self.new) result }
        ensures later { AreOutletsLater seen loans self.old self.new };

    /// Writes `=`, the length of a body, a newline and the body, and hands them on.
    fn print_body(&mut self, alloc: Global, body: &Many<u8>) -> Result<(), ScriptFailure>
        ensures prints { Prints (body_text body.now) (seen self.old) (seen self.new) result }
        ensures later { AreOutletsLater seen loans self.old self.new };
}

/// A sink and two wires that are borrowed.
#[derive(Drop)]
pub struct SinkAndWires<'a, 'b, 'c, K, A: Drop, B: Drop> {
    pub sink: &'a mut K,
    pub first: &'b mut Wire<A>,
    pub second: &'c mut Wire<B>,
}

impl<'a, 'b, 'c, K: Sink, A: Link, B: Link> Outlets for SinkAndWires<'a, 'b, 'c, K, A, B> {
    ghost seen = { λ o. ports (K.held o.sink.now) (K.faults o.sink.now)
        (wire_seen A.left A.held A.Source.faults A.Sink.faults o.first.now)
        (wire_seen B.left B.held B.Source.faults B.Sink.faults o.second.now) };

    ghost loans = { λ o. record {
      sink = o.sink.ghost_name;
      first = o.first.ghost_name;
      second = o.second.ghost_name;
    } };

    #[tactic(auto, using(crate::proofs::Carrying::by_second, crate::proofs::Carrying::by_first))]
    fn ask(
        &mut self,
        alloc: Global,
        caller: &Caller,
        sent: &Request,
    ) -> Result<ReadReply, ScriptFailure> {
        if is_poll(sent) {
            ask(alloc, caller, sent, self.second)
        } else {
            ask(alloc, caller, sent, self.first)
        }
    }

    fn print(&mut self, text: &[u8]) -> Result<(), ScriptFailure> {
        send(self.sink, text)
    }

    fn print_body(&mut self, alloc: Global, body: &Many<u8>) -> Result<(), ScriptFailure> {
        send_body(alloc, self.sink, body)
    }
}
