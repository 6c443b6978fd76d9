//! The machine.
ghost use Rattle.std.specs.Prelude.{◌≡◌, ◌↔◌, ◌⊎◌, ◌≤◌, IfOk, IsOk, IsTrue, OnErr, max};
ghost use Rattle.std.specs.Bool.{OnTrue};
ghost use Rattle.ifmap_core.specs.Bounds.{IsWithinTable};
ghost use Rattle.ifmap_core.specs.Causes.{AsksForNoneLeft, AsksPoll, FindsTooMuch, HasNoRoomForName, IsLoss, IsRefusal, NamesAnothersSession, NamesNoSession, PollsNoSession, PollsNothing, PurgesAnother, state_for};
ghost use Rattle.ifmap_core.specs.Counts.{IsInUse, link_count};
ghost use Rattle.ifmap_core.specs.EmptyPolls.{WouldHold};
ghost use Rattle.ifmap_core.specs.Light.{TakesNoMemory};
ghost use Rattle.ifmap_subscribes.specs.ifmap_graph.Counted.{AreSoMany};
ghost use Rattle.ifmap_ident.specs.declared.codes.Code.{Code};
ghost use Rattle.ifmap_ident.specs.declared.codes.Code.TheVariants as the_code;
ghost use Rattle.ifmap_subscribes.specs.ifmap_machine.declared.events.Answer.TheVariants as the_answer;
ghost use Rattle.ifmap_subscribes.specs.ifmap_machine.State.{advance, opening_state};
ghost use Rattle.ifmap_subscribes.specs.ifmap_machine.Step.{step};
ghost use Rattle.ifmap_subscribes.specs.ifmap_replies.declared.replies.Reply.TheVariants as the_reply;

use crate::empty_polls::{has_nothing, polled_id};
use crate::ending::{Time, answer_at};
use ifmap_ident::laws::bytes_tell_identifiers_apart;
use ifmap_io::Moment;
use ifmap_session::Sessions;
use ifmap_steps::Steps;
use ifmap_subscribes::{Answer, Event, Graph, Parts};
use std::alloc::{AllocError as NoMemory, Global};
use std::marker::Model;
use std::sync::ledger::Ledger;

/// The machine. Contracts see its state.
#[derive(Drop)]
pub struct Core {
    ttl: u32,
    moment: Moment,
    parts: Parts,
}

impl Model for Core {
    ghost use Rattle.std.specs.Coded.{codes};
    ghost use Rattle.ifmap_subscribes.specs.ifmap_changes.Between.{IsCore, state_at};
    ghost use Rattle.ifmap_subscribes.specs.ifmap_machine.State.{State};
    ghost use Rattle.ifmap_session.specs.ifmap_search.contracts.results.PollItem as the_poll_item;
    ghost use Rattle.ifmap_session.specs.ifmap_search.contracts.searches.Search as the_search;
    ghost use Rattle.ifmap_subscribes.specs.ifmap_view.contracts.attachments.Attachment as the_attachment;

    ghost Value = { State };

    ghost coded = { Prim.hlevel (
      codes,
      the_attachment.the_row.coded,
      the_poll_item.the_row.coded,
      the_search.the_row.coded,
    ) };

    ghost view = { λ core. state_at core.ttl core.moment core.parts };

    ghost invariant = { λ core. IsCore core.ttl core.parts };
}

fn later_moment(one: Moment, other: Moment) -> Moment
    ensures { result ≡ max one other }
{
    one.max(other)
}

impl Core {
    /// A machine in its opening state. `ttl` is after how many seconds without an accepted request
    /// a session is expired. It takes no memory.
    pub fn new(alloc: Global, ttl: u32) -> Core
        requires { 1 ≤ ttl }
        ensures { result ≡ opening_state ttl }
    {
        Core {
            ttl,
            moment: Moment::new(0).unwrap(),
            parts: Parts {
                graph: Graph::new(alloc),
                sessions: Sessions::new(alloc),
                standing: Vec::new(alloc),
            },
        }
    }

    /// Answers an event: the answer and the state after it are those of `step`. The one error is
    /// want of memory, also told where a result or a queue would have about 2^64 bytes; it leaves
    /// the state as it was, the moment too.
    pub fn step<L: Ledger>(
        &mut self,
        alloc: Global,
        event: &Event,
        steps: &mut Steps<L>,
    ) -> Result<Answer, NoMemory>
        ensures answer { IfOk result (λ answer. (self.new, answer) ≡ step self.old event.now) }
        ensures err { OnErr result (self.new ≡ self.old) }

        // A renewal of a live session of the client's takes no memory, nor a poll in it, where no
        // session is expired.
        ensures no_memory { TakesNoMemory self.old event.now → IsOk result }

        // A refusal changes nothing, once the moment is taken in and the expired sessions have
        // ended.
        ensures refusal { IfOk result (λ answer. (code : Code) → IsRefusal code answer
            → self.new ≡ state_for self.old event.now) }

        // Each refusal comes exactly where its cause stands, in the state that is answered in.
        ensures invalid_session { IfOk result (λ answer. IsRefusal the_code.InvalidSessionID answer
            ↔ NamesNoSession (state_for self.old event.now) event.now.again event.now.ask) }
        ensures access_denied { IfOk result (λ answer. IsRefusal the_code.AccessDenied answer
            ↔ (NamesAnothersSession (state_for self.old event.now) event.now.client event.now.ask
            ⊎ PurgesAnother (state_for self.old event.now) event.now.client event.now.ask)) }
        ensures system_error { IfOk result (λ answer. IsRefusal the_code.SystemError answer
            ↔ (AsksForNoneLeft (state_for self.old event.now) event.now.client event.now.ask
            ⊎ HasNoRoomForName (state_for self.old event.now) event.now.client event.now.ask)) }
        ensures too_big { IfOk result (λ answer. IsRefusal the_code.SearchResultsTooBig answer
            ↔ FindsTooMuch (state_for self.old event.now) event.now.client event.now.ask) }

        // So do an answer that is held, one that is only heard, and the end that a poll is told of.
        ensures held { IfOk result (λ answer. (answer ≡ the_answer.Held)
            ↔ PollsNothing (state_for self.old event.now) event.now.client event.now.ask) }
        ensures heard { IfOk result (λ answer. (answer ≡ the_answer.Heard) ↔ IsLoss event.now.ask) }
        ensures told_end { IfOk result (λ answer. AsksPoll event.now.ask
            → ((answer ≡ the_answer.Reply the_reply.Ended)
            ↔ PollsNoSession (state_for self.old event.now) event.now.again event.now.ask)) }

        // It takes at most the sum of the steps that the event's changes and searches may take,
        // also at want of memory.
        ensures steps { IsWithinTable self.old event.now steps.old steps.new }
    {
        let moment = later_moment(self.moment, event.moment);
        let time = Time {
            ttl: self.ttl,
            moment,
        };
        let answer = answer_at(alloc, &mut self.parts, &time, event, steps)?;
        self.moment = moment;
        Ok(answer)
    }

    /// How many links carry an attachment. It walks all items that carry one.
    pub fn links(&self) -> u64
        ensures { result ≡ link_count self.now }
    {
        self.parts.graph.links()
    }

    /// How many identifiers are in use: they stand in an item that carries an attachment, or a
    /// subscription starts there. No other has a number.
    pub fn identifiers(&self) -> u64
        ensures { AreSoMany result (IsInUse self.now) }
    {
        // The pattern names every field: a core keeps nothing beside its parts.
        let Core {
            ttl: _,
            moment: _,
            parts,
        } = self;
        bytes_tell_identifiers_apart();
        parts.graph.is_view();
        parts.graph.identifiers()
    }

    /// Whether a poll that is asked again would still be held, so that asking it changes nothing
    /// but the moment. It takes no memory.
    pub fn would_hold(&self, event: &Event) -> bool
        ensures exact { IsTrue result ↔ WouldHold self.now event.now }
        ensures held { OnTrue result ((advance event.now.moment self.now, the_answer.Held)
            ≡ step self.now event.now) }
    {
        let Some(id) = polled_id(&event.ask) else {
            return false;
        };
        let moment = later_moment(self.moment, event.moment);
        if !event.again || self.parts.sessions.any_expired(moment, self.ttl) {
            return false;
        }
        has_nothing(&self.parts.sessions, &event.client, id)
    }
}
