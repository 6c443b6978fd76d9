//! What a client knows, and the lines that it carries out.
ghost use Rattle.std.specs.Prelude.{◌≡◌, OnOk};
ghost use Rattle.ifmap_client.specs.ifmap_folds.Folds.{fold_items};
ghost use Rattle.ifmap_client.specs.Keeping.{sets_of};
ghost use Rattle.ifmap_client_script.specs.Deeds.{after_reply, nothing_known};
ghost use Rattle.ifmap_client_script.specs.Holding.{known_of};
ghost use Rattle.ifmap_client_script.specs.Outlets.{AreOutletsLater, AsksOver, CanAsk, Prints};
ghost use Rattle.ifmap_client_script.specs.Printing.{body_text, set_text};
ghost use Rattle.ifmap_client_script.specs.Turns.{CarriesOut};

use crate::exchanges::{Caller, ReadReply};
use crate::outcomes::ScriptFailure;
use crate::outlets::Outlets;
use crate::printing::set_text;
use crate::requests::request_in;
use ifmap_client::{ClientSets, Line};
use ifmap_elem::Text;
use ifmap_replies::Reply;
use ifmap_requests::Request;
use ifmap_search::PollItem;
use std::alloc::{AllocError as NoMemory, Global};
use std::marker::Model;

/// What a client knows: the session that was begun last, and what its polls were told since.
#[derive(Drop)]
pub struct Client {
    session: Option<Text>,
    sets: ClientSets,
}

impl Model for Client {
    ghost use Rattle.std.specs.Coded.{codes};
    ghost use Rattle.ifmap_search.specs.contracts.results.Entry as the_entry;
    ghost use Rattle.ifmap_client_script.specs.Holding.{Holding};

    ghost Value = { Holding };

    ghost coded = { Prim.hlevel (codes, the_entry.the_row.coded) };

    ghost view = { λ client. record { session = client.session; kept = client.sets } };
}

impl Client {
    /// No session was begun.
    pub fn new(alloc: Global) -> Client
        ensures { known_of result ≡ nothing_known }
    {
        Client {
            session: None,
            sets: ClientSets::new(alloc),
        }
    }

    /// Carries a line out.
    pub fn do_line<O: Outlets>(
        &mut self,
        alloc: Global,
        caller: &Caller,
        line: Line,
        outlets: &mut O,
    ) -> Result<(), ScriptFailure>
        requires { CanAsk caller.now (O.seen outlets.old) }
        ensures carries { CarriesOut caller.now line (O.seen outlets.old) (O.seen outlets.new)
            (known_of self.old) (known_of self.new) result }
        ensures later { AreOutletsLater O.seen O.loans outlets.old outlets.new }
    {
        match line {
            Line::Blank => Ok(()),
            Line::Request(request) => self.do_request(alloc, caller, request, outlets),
            Line::Set(name) => self.print_set(alloc, &name, outlets),
        }
    }

    // Asks a request, and writes the reply.
    fn do_request<O: Outlets>(
        &mut self,
        alloc: Global,
        caller: &Caller,
        request: Request,
        outlets: &mut O,
    ) -> Result<(), ScriptFailure>
        requires { CanAsk caller.now (O.seen outlets.old) }
        ensures carries { CarriesOut caller.now (Line.Request request) (O.seen outlets.old)
            (O.seen outlets.new) (known_of self.old) (known_of self.new) result }
        ensures later { AreOutletsLater O.seen O.loans outlets.old outlets.new }
    {
        match self.ask(alloc, caller, request, outlets) {
            Ok(told) => self.tell(alloc, told, outlets),
            Err(failure) => Err(failure),
        }
    }

    // Takes what was answered, and writes it.
    fn tell<O: Outlets>(
        &mut self,
        alloc: Global,
        told: ReadReply,
        outlets: &mut O,
    ) -> Result<(), ScriptFailure>
        ensures prints { Prints (body_text told.body) (O.seen outlets.old) (O.seen outlets.new)
            result }
        ensures known { OnOk result (known_of self.new
            ≡ after_reply told.reply (known_of self.old)) }
        ensures later { AreOutletsLater O.seen O.loans outlets.old outlets.new }
    {
        let ReadReply { body, reply } = told;
        if self.take(alloc, reply).is_err() {
            return Err(ScriptFailure::NoMemory);
        }
        outlets.print_body(alloc, &body)
    }

    // Writes the set of that name.
    fn print_set<O: Outlets>(
        &self,
        alloc: Global,
        name: &Text,
        outlets: &mut O,
    ) -> Result<(), ScriptFailure>
        ensures prints { Prints (set_text (sets_of self.now.kept name.now)) (O.seen outlets.old)
            (O.seen outlets.new) result }
        ensures later { AreOutletsLater O.seen O.loans outlets.old outlets.new }
    {
        let Ok(text) = set_text(alloc, self.sets.set_of(name)) else {
            return Err(ScriptFailure::NoMemory);
        };
        outlets.print(&text)
    }

    // Sends a request over its wire, and takes the answer to it.
    fn ask<O: Outlets>(
        &self,
        alloc: Global,
        caller: &Caller,
        request: Request,
        outlets: &mut O,
    ) -> Result<ReadReply, ScriptFailure>
        requires { CanAsk caller.now (O.seen outlets.old) }
        ensures asks { AsksOver caller.now request (known_of self.now) (O.seen outlets.old)
            (O.seen outlets.new) result }
        ensures later { AreOutletsLater O.seen O.loans outlets.old outlets.new }
    {
        match request_in(alloc, &self.session, request) {
            Ok(sent) => outlets.ask(alloc, caller, &sent),
            Err(failure) => Err(failure),
        }
    }

    // Takes what was answered.
    fn take(&mut self, alloc: Global, reply: Reply) -> Result<(), NoMemory>
        ensures { OnOk result (known_of self.new ≡ after_reply reply (known_of self.old)) }
    {
        match reply {
            Reply::NewSession { session, .. } => {
                self.session = Some(session);
                self.sets = ClientSets::new(alloc);
                Ok(())
            }
            Reply::Polled(items) => take_items(alloc, &mut self.sets, items.as_slice()),
            Reply::Renewed => Ok(()),
            Reply::Ended => Ok(()),
            Reply::Published => Ok(()),
            Reply::Subscribed => Ok(()),
            Reply::Purged => Ok(()),
            Reply::Found(_) => Ok(()),
            Reply::Error { .. } => Ok(()),
        }
    }
}

// Takes what a poll was told, one item after the other.
fn take_items(alloc: Global, sets: &mut ClientSets, items: &[PollItem]) -> Result<(), NoMemory>
    ensures { OnOk result (sets_of sets.new ≡ fold_items items.now (sets_of sets.old)) }
{
    for item in items {
        sets.take(alloc, item)?;
    }
    Ok(())
}
