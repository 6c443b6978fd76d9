//! Requests in sessions. Each takes all the memory that it needs before it changes anything.
ghost use Rattle.std.specs.Prelude.{◌≡◌, ◌∷◌, [], IfOk};
ghost use Rattle.std.specs.List.{AllByRecursion};
ghost use Rattle.ifmap_subscribes.specs.ifmap_changes.Between.{state_now};
ghost use Rattle.ifmap_subscribes.specs.ifmap_changes.Bounds.{IsEndedWithin, IsTakenWithin, IsToldWithin};
ghost use Rattle.ifmap_core.specs.Answering.{CanAnswer, GivesCase, GivesCompletion, IsCaseWithin, AreLaterOrKept};
ghost use Rattle.ifmap_core.specs.Bounds.{IsAskWithin, IsWithinIf};
ghost use Rattle.ifmap_core.specs.declared.completions.Completion.TheVariants.{Say};
ghost use Rattle.ifmap_core.specs.Completions.{end_of_poll};
ghost use Rattle.ifmap_ident.specs.declared.codes.Code.TheVariants.{SearchResultsTooBig};
ghost use Rattle.ifmap_ident.specs.Canon.{IsIdentifier};
ghost use Rattle.ifmap_subscribes.specs.ifmap_machine.Step.{author_in, end_session, lose, poll, publish, purge, refusal_with, renew_session, search, step_ask, subscribe};
ghost use Rattle.ifmap_subscribes.specs.ifmap_machine.Telling.{limit_note};
ghost use Rattle.ifmap_subscribes.specs.ifmap_publish.Apply.{apply};
ghost use Rattle.ifmap_subscribes.specs.ifmap_publish.declared.who.Who.TheVariants.{Publisher};
ghost use Rattle.ifmap_subscribes.specs.ifmap_requests.Fit.{IsFitOp, IsFitSubscribeOp};
ghost use Rattle.ifmap_session.specs.Sessions.{is_same_text, session_with_id};
ghost use Rattle.ifmap_subscribes.specs.Bounds.{AreOpsWithin, IsWithinSpan};

use crate::beginning::{NewSession, new_session};
use crate::completions::{Completion, refuse};
use crate::owning::{Owner, owner_of};
use crate::subscribing::{SessionOps, subscribe_in};
use ifmap_elem::{Copied, Equals, Many, Text};
use ifmap_ident::Code;
use ifmap_session::{Search, SearchError};
use ifmap_steps::Steps;
use ifmap_subscribes::{
    Answer, Ask, Asking, Event, Parts, Pending, Publication, PublishOp, Reply, Request,
    SubscribeOp, Who, fresh, publish as publish_in, take_away, take_away_one,
};
use std::alloc::{AllocError as NoMemory, Global};
use std::sync::ledger::Ledger;

// What is asked in a session.
#[derive(Drop)]
struct InSession<'a, T> {
    id: &'a Text,
    asked: &'a T,
}

// The case of each ask.
pub(crate) fn answer<L: Ledger>(
    alloc: Global,
    parts: &mut Parts,
    pending: &mut Pending,
    asking: &Asking,
    event: &Event,
    steps: &mut Steps<L>,
) -> Result<Completion, NoMemory>
    requires can { CanAnswer asking.now parts.old pending.old }
    requires client { asking.now.client ≡ event.now.client }
    ensures leads { GivesCompletion result asking.now parts.new pending.new
        (step_ask (state_now asking.now parts.old pending.old) event.now event.now.ask) }
    ensures change { AreLaterOrKept result parts.old parts.new }
    ensures steps { IsAskWithin (state_now asking.now parts.old pending.old) event.now
        event.now.ask steps.old steps.new }
{
    match &event.ask {
        Ask::Lost(id) => lose(alloc, parts, pending, asking, id, steps),
        Ask::Request(Request::NewSession { limit }) => {
            let (random, limit) = (event.random, *limit);
            let wish = NewSession { random, limit };
            new_session(alloc, parts, pending, asking, wish, steps)
        }
        Ask::Request(Request::RenewSession { session }) => {
            renew_session(alloc, parts, pending, asking, session)
        }
        Ask::Request(Request::EndSession { session }) => {
            end_session(alloc, parts, pending, asking, session, steps)
        }
        Ask::Request(Request::Publish { session: id, ops }) => {
            let wish = InSession { id, asked: ops };
            publish(alloc, parts, pending, asking, &wish, steps)
        }
        Ask::Request(Request::Search { session, search }) => {
            let wish = InSession {
                id: session,
                asked: search,
            };
            run_search(alloc, parts, pending, asking, &wish, steps)
        }
        Ask::Request(Request::Subscribe { session: id, ops }) => {
            let wish = InSession { id, asked: ops };
            subscribe(alloc, parts, pending, asking, &wish, steps)
        }
        Ask::Request(Request::Poll { session }) => {
            poll(alloc, parts, pending, asking, session, event.again)
        }
        Ask::Request(Request::PurgePublisher { session, publisher }) => {
            let wish = InSession {
                id: session,
                asked: publisher,
            };
            purge(alloc, parts, pending, asking, &wish, steps)
        }
    }
}

fn renew_session(
    alloc: Global,
    parts: &Parts,
    pending: &Pending,
    asking: &Asking,
    id: &Text,
) -> Result<Completion, NoMemory>
    requires { CanAnswer asking.now parts.now pending.now }
    ensures { GivesCase result id.now renew_session asking.now
        parts.now pending.now parts.now pending.now }
{
    match owner_of(&parts.sessions, asking, id) {
        Owner::Own(serial) => Ok(Completion::Accept {
            serial,
            answer: Answer::Reply(Reply::Renewed),
        }),
        Owner::Another => refuse(alloc, Code::AccessDenied),
        Owner::Nobody => refuse(alloc, Code::InvalidSessionID),
    }
}

// The session of that id ends, where it is the client's.
fn lose<L: Ledger>(
    alloc: Global,
    parts: &mut Parts,
    pending: &mut Pending,
    asking: &Asking,
    id: &Text,
    steps: &mut Steps<L>,
) -> Result<Completion, NoMemory>
    requires { CanAnswer asking.now parts.old pending.old }
    ensures leads { let before = state_now asking.now parts.old pending.old in
        GivesCompletion result asking.now parts.new pending.new
        (lose before asking.now.client (session_with_id id.now before.sessions)) }
    ensures change { AreLaterOrKept result parts.old parts.new }
    ensures steps { IsCaseWithin id.now (λ before s. IsEndedWithin (s.serial ∷ []) before)
        asking.now parts.old pending.old steps.old steps.new }
{
    match owner_of(&parts.sessions, asking, id) {
        Owner::Own(serial) => {
            take_away_one(alloc, parts, pending, asking, serial, steps)?;
            let answer = Answer::Heard;
            Ok(Completion::End { serial, answer })
        }
        Owner::Another => Ok(Completion::Say(Answer::Heard)),
        Owner::Nobody => Ok(Completion::Say(Answer::Heard)),
    }
}

fn end_session<L: Ledger>(
    alloc: Global,
    parts: &mut Parts,
    pending: &mut Pending,
    asking: &Asking,
    id: &Text,
    steps: &mut Steps<L>,
) -> Result<Completion, NoMemory>
    requires { CanAnswer asking.now parts.old pending.old }
    ensures leads { GivesCase result id.now end_session asking.now
        parts.old pending.old parts.new pending.new }
    ensures change { AreLaterOrKept result parts.old parts.new }
    ensures steps { IsCaseWithin id.now (λ before s. IsEndedWithin (s.serial ∷ []) before)
        asking.now parts.old pending.old steps.old steps.new }
{
    match owner_of(&parts.sessions, asking, id) {
        Owner::Own(serial) => {
            take_away_one(alloc, parts, pending, asking, serial, steps)?;
            let answer = Answer::Reply(Reply::Ended);
            Ok(Completion::End { serial, answer })
        }
        Owner::Another => refuse(alloc, Code::AccessDenied),
        Owner::Nobody => refuse(alloc, Code::InvalidSessionID),
    }
}

fn publish<L: Ledger>(
    alloc: Global,
    parts: &mut Parts,
    pending: &mut Pending,
    asking: &Asking,
    wish: &InSession<'_, Many<PublishOp>>,
    steps: &mut Steps<L>,
) -> Result<Completion, NoMemory>
    requires can { CanAnswer asking.now parts.old pending.old }
    requires fit { AllByRecursion IsFitOp wish.now.asked.now }
    ensures leads { GivesCase result wish.now.id.now
        (λ before. publish before wish.now.asked.now) asking.now
        parts.old pending.old parts.new pending.new }
    ensures change { AreLaterOrKept result parts.old parts.new }
    ensures steps { IsCaseWithin wish.now.id.now (λ before s.
        IsToldWithin (apply before.graph (author_in before s) wish.now.asked.now) before)
        asking.now parts.old pending.old steps.old steps.new }
{
    match owner_of(&parts.sessions, asking, wish.id) {
        Owner::Own(serial) => {
            let publication = Publication {
                serial,
                ops: wish.asked,
            };
            publish_in(alloc, parts, pending, asking, &publication, steps)?;
            let answer = Answer::Reply(Reply::Published);
            Ok(Completion::Accept { serial, answer })
        }
        Owner::Another => refuse(alloc, Code::AccessDenied),
        Owner::Nobody => refuse(alloc, Code::InvalidSessionID),
    }
}

fn purge<L: Ledger>(
    alloc: Global,
    parts: &mut Parts,
    pending: &mut Pending,
    asking: &Asking,
    wish: &InSession<'_, Text>,
    steps: &mut Steps<L>,
) -> Result<Completion, NoMemory>
    requires { CanAnswer asking.now parts.old pending.old }
    ensures leads { GivesCase result wish.now.id.now
        (λ before. purge before wish.now.asked.now) asking.now
        parts.old pending.old parts.new pending.new }
    ensures change { AreLaterOrKept result parts.old parts.new }
    ensures steps { IsCaseWithin wish.now.id.now (λ before s.
        IsWithinIf (is_same_text wish.now.asked.now s.client)
        (IsTakenWithin (Publisher wish.now.asked.now) before))
        asking.now parts.old pending.old steps.old steps.new }
{
    match owner_of(&parts.sessions, asking, wish.id) {
        Owner::Own(serial) => {
            if !wish.asked.equals(asking.client.text()) {
                return refuse(alloc, Code::AccessDenied);
            }
            let who = Who::Publisher(asking.client.copy(alloc)?);
            take_away(alloc, parts, pending, asking, &who, steps)?;
            let answer = Answer::Reply(Reply::Purged);
            Ok(Completion::Accept { serial, answer })
        }
        Owner::Another => refuse(alloc, Code::AccessDenied),
        Owner::Nobody => refuse(alloc, Code::InvalidSessionID),
    }
}

fn run_search<L: Ledger>(
    alloc: Global,
    parts: &Parts,
    pending: &Pending,
    asking: &Asking,
    wish: &InSession<'_, Search>,
    steps: &mut Steps<L>,
) -> Result<Completion, NoMemory>
    requires can { CanAnswer asking.now parts.now pending.now }
    requires start { IsIdentifier wish.now.asked.now.start }
    ensures leads { GivesCase result wish.now.id.now
        (λ before. search before wish.now.asked.now) asking.now
        parts.now pending.now parts.now pending.now }
    ensures steps { IsCaseWithin wish.now.id.now
        (λ before s. IsWithinSpan 3 before.graph wish.now.asked.now)
        asking.now parts.now pending.now steps.old steps.new }
{
    parts.graph.is_view();
    match owner_of(&parts.sessions, asking, wish.id) {
        Owner::Own(serial) => match fresh(alloc, &parts.graph, wish.asked, steps) {
            Ok(found) => Ok(Completion::Accept {
                serial,
                answer: Answer::Reply(Reply::Found(found.entries)),
            }),
            Err(SearchError::TooBig { size }) => refuse_size(alloc, size, wish.asked.max_size),
            Err(SearchError::NoMemory) => Err(NoMemory),
        },
        Owner::Another => refuse(alloc, Code::AccessDenied),
        Owner::Nobody => refuse(alloc, Code::InvalidSessionID),
    }
}

fn subscribe<L: Ledger>(
    alloc: Global,
    parts: &mut Parts,
    pending: &mut Pending,
    asking: &Asking,
    wish: &InSession<'_, Many<SubscribeOp>>,
    steps: &mut Steps<L>,
) -> Result<Completion, NoMemory>
    requires can { CanAnswer asking.now parts.old pending.old }
    requires fit { AllByRecursion IsFitSubscribeOp wish.now.asked.now }
    ensures leads { GivesCase result wish.now.id.now
        (λ before. subscribe before wish.now.asked.now) asking.now
        parts.old pending.old parts.new pending.new }
    ensures change { AreLaterOrKept result parts.old parts.new }
    ensures steps { IsCaseWithin wish.now.id.now
        (λ before s. AreOpsWithin before.graph wish.now.asked.now)
        asking.now parts.old pending.old steps.old steps.new }
{
    match owner_of(&parts.sessions, asking, wish.id) {
        Owner::Own(serial) => {
            let ops = SessionOps {
                serial,
                ops: wish.asked,
            };
            subscribe_in(alloc, parts, pending, asking, &ops, steps)
        }
        Owner::Another => refuse(alloc, Code::AccessDenied),
        Owner::Nobody => refuse(alloc, Code::InvalidSessionID),
    }
}

// The refusal of a search that finds too much.
fn refuse_size(alloc: Global, size: u64, limit: u64) -> Result<Completion, NoMemory>
    ensures { IfOk result (λ completion. completion
        ≡ Say (refusal_with SearchResultsTooBig (limit_note size limit))) }
{
    let note = Text(format!(in alloc; "{size} of {limit}")?);
    let code = Code::SearchResultsTooBig;
    Ok(Completion::Say(Answer::Reply(Reply::Error { code, note })))
}

fn poll(
    alloc: Global,
    parts: &Parts,
    pending: &Pending,
    asking: &Asking,
    id: &Text,
    again: bool,
) -> Result<Completion, NoMemory>
    requires { CanAnswer asking.now parts.now pending.now }
    ensures { let before = state_now asking.now parts.now pending.now in
        GivesCompletion result asking.now parts.now pending.now
        (poll before asking.now.client again (session_with_id id.now before.sessions)) }
{
    match owner_of(&parts.sessions, asking, id) {
        Owner::Own(serial) => Ok(Completion::Poll { serial, again }),
        Owner::Another => refuse(alloc, Code::AccessDenied),
        Owner::Nobody => tell_end(alloc, again),
    }
}

// What a poll is told where no live session has its id: the end, where it is asked again.
fn tell_end(alloc: Global, again: bool) -> Result<Completion, NoMemory>
    ensures { IfOk result (λ completion. completion ≡ end_of_poll again) }
{
    if again {
        Ok(Completion::Say(Answer::Reply(Reply::Ended)))
    } else {
        refuse(alloc, Code::InvalidSessionID)
    }
}
