//! Asking what posts mean.
ghost use Rattle.std.specs.Prelude.{◌≡◌, ◌≢◌, ◌≤◌, ◌∷◌, ℕ, List, false, IfOk, OnErr, []};
ghost use Rattle.ifmap_elem.specs.Chars.{IsCharacters};
ghost use Rattle.ifmap_http.specs.ifmap_heads.Limits.{longest_post};
ghost use Rattle.ifmap_machine.specs.ifmap_requests.Fit.{IsFitRequest};
ghost use Rattle.ifmap_machine.specs.ifmap_requests.declared.requests.Request.TheVariants.{Poll as Polling};
ghost use Rattle.ifmap_dialogue.specs.Answers.{ending_heard};
ghost use Rattle.ifmap_dialogue.specs.Desks.{DeskTakesTurns, Turn, greatest_weight, outcome_of, weight};
ghost use Rattle.ifmap_dialogue.specs.Findings.{FindsQuestion, FindsRequest, finding_of, own_request};
ghost use Rattle.ifmap_dialogue.specs.Turns.{AsksLost, IsFirstPoll, event_of_question, question_of};
ghost use Rattle.ifmap_dialogue.specs.Words.{after_random, random_word};

use crate::desks::{AskOutcome, BEFORE_ASK, Desk, Gate};
use crate::endings::Ending;
use crate::findings::Finding;
use crate::polls::Poll;
use crate::settings::Setting;
use crate::words::draw_word;
use ifmap_elem::{Copied, Text};
use ifmap_hall::Asked;
use ifmap_io::Clock;
use ifmap_machine::{Answer, Ask, Event, Reply, Request};
use ifmap_meta::ClientName;
use rand_chacha::ChaCha20Rng;
use std::alloc::AllocError as NoMemory;

// Who asks, and in how many bytes.
#[derive(Drop)]
pub(crate) struct Asker {
    pub client: ClientName,
    pub bytes: u32,
}

/// How often the request of one post is asked.
pub const MOST_TURNS: u32 = 36_000;

// Asks one event at the desk.
pub(crate) fn take_turn<K: Desk, G: Gate>(desk: &mut K, gate: &mut G, event: Event) -> AskOutcome
    requires light { weight event ≤ greatest_weight }
    ensures { (turn : Turn) × (turn.event ≡ event) × (result ≡ outcome_of turn.asked)
        × DeskTakesTurns (K.seen desk.old) (K.seen desk.new) (turn ∷ []) }
{
    gate.pass(BEFORE_ASK);
    outcome_of(desk.ask(event))
}

// How a turn with this answer went.
fn outcome_of(asked: Asked<Event, Answer>) -> AskOutcome
    ensures { result ≡ outcome_of asked }
{
    match asked {
        Asked::Done { reply, .. } => match reply {
            Answer::Reply(reply) => AskOutcome::Replied(reply),
            Answer::Held => AskOutcome::Held,
            Answer::Heard => AskOutcome::Heard,
        },
        Asked::Held { .. } => AskOutcome::Held,
        Asked::Spent { entries, .. } => AskOutcome::Spent { entries },
        Asked::NoMemory { .. } => AskOutcome::NoMemory,
    }
}

// Asks a request of a client.
pub(crate) fn ask_request<K: Desk, C: Clock, G: Gate>(
    setting: &Setting<'_, C>,
    desk: &mut K,
    words: &mut ChaCha20Rng,
    gate: &mut G,
    asker: Asker,
    request: Request,
) -> Finding
    requires fit { IsFitRequest request }
    requires short { asker.bytes ≤ longest_post }
    ensures { FindsRequest (C.gives setting.now.clock.now) (K.seen desk.old) (K.seen desk.new)
        (own_request asker.client asker.bytes request words.old words.new) result }
{
    match request {
        Request::Poll { session } => ask_poll(setting, desk, words, gate, asker, session),
        other => ask_once(setting, desk, words, gate, asker, other),
    }
}

// The event by which a request is asked first.
fn first_event<C: Clock>(
    setting: &Setting<'_, C>,
    client: ClientName,
    random: u128,
    bytes: u32,
    request: Request,
) -> Event
    requires { IsFitRequest request }
    ensures { (moment : ℕ) × C.gives setting.now.clock.now moment
        × (result ≡ event_of_question (record {
          client = client;
          request = request;
          bytes = bytes;
          random = random;
        }) false moment) }
{
    Event {
        moment: setting.clock.now(),
        client,
        random,
        again: false,
        bytes,
        ask: Ask::Request(request),
    }
}

// Asks a request that is no poll, which no desk holds.
fn ask_once<K: Desk, C: Clock, G: Gate>(
    setting: &Setting<'_, C>,
    desk: &mut K,
    words: &mut ChaCha20Rng,
    gate: &mut G,
    asker: Asker,
    request: Request,
) -> Finding
    requires fit { IsFitRequest request }
    requires short { asker.bytes ≤ longest_post }
    requires other { (session : List ℕ) → request ≢ Polling session }
    ensures { FindsRequest (C.gives setting.now.clock.now) (K.seen desk.old) (K.seen desk.new)
        (own_request asker.client asker.bytes request words.old words.new) result }
{
    let Asker { client, bytes } = asker;
    let random = draw_word(words);
    let event = first_event(setting, client, random, bytes, request);
    match take_turn(desk, gate, event) {
        AskOutcome::Replied(reply) => Finding::Replied(reply),
        AskOutcome::Spent { entries } => Finding::Spent { entries },
        AskOutcome::NoMemory => Finding::NoMemory,
        AskOutcome::Held => unreachable!(),
        AskOutcome::Heard => unreachable!(),
    }
}

// Asks a poll until it is not held.
fn ask_poll<K: Desk, C: Clock, G: Gate>(
    setting: &Setting<'_, C>,
    desk: &mut K,
    words: &mut ChaCha20Rng,
    gate: &mut G,
    asker: Asker,
    session: Text,
) -> Finding
    requires fit { IsCharacters session }
    requires short { asker.bytes ≤ longest_post }
    ensures { FindsRequest (C.gives setting.now.clock.now) (K.seen desk.old) (K.seen desk.new)
        (own_request asker.client asker.bytes (Polling session) words.old words.new) result }
{
    match begin_poll(setting, words, asker, session) {
        Ok((poll, event)) => await_reply(setting, desk, gate, poll, event),
        Err(_) => Finding::NoMemory,
    }
}

// A poll, and its first event. No word is taken at want of memory.
fn begin_poll<C: Clock>(
    setting: &Setting<'_, C>,
    words: &mut ChaCha20Rng,
    asker: Asker,
    session: Text,
) -> Result<(Poll, Event), NoMemory>
    requires fit { IsCharacters session }
    ensures poll { IfOk result (λ made. made.0 ≡ record {
      client = asker.client;
      session = session;
      random = random_word words.old;
      bytes = asker.bytes;
    }) }
    ensures event { IfOk result
        (λ made. IsFirstPoll (C.gives setting.now.clock.now) made.0 made.1) }
    ensures drawn { IfOk result (λ _. words.new ≡ after_random words.old) }
    ensures none { OnErr result (words.new ≡ words.old) }
{
    let Asker { client, bytes } = asker;
    let named = client.copy(setting.alloc)?;
    let copied = session.copy(setting.alloc)?;
    let request = Request::Poll { session: copied };
    let random = draw_word(words);
    let event = first_event(setting, named, random, bytes, request);
    let poll = Poll {
        client,
        session,
        random,
        bytes,
    };
    Ok((poll, event))
}

// Asks a poll by its first event, and again while it is held.
fn await_reply<K: Desk, C: Clock, G: Gate>(
    setting: &Setting<'_, C>,
    desk: &mut K,
    gate: &mut G,
    poll: Poll,
    first: Event,
) -> Finding
    requires fit { IsCharacters poll.session }
    requires short { poll.bytes ≤ longest_post }
    requires first { IsFirstPoll (C.gives setting.now.clock.now) poll first }
    ensures { FindsQuestion (C.gives setting.now.clock.now) (K.seen desk.old) (K.seen desk.new)
        (question_of poll) result }
{
    let mut event = first;
    let mut turns = 0;
    'turns: loop {
        match take_turn(desk, gate, event) {
            AskOutcome::Replied(reply) => return finding_of(reply, poll),
            AskOutcome::Spent { entries } => return Finding::Spent { entries },
            AskOutcome::NoMemory => return Finding::NoMemory,
            AskOutcome::Held => {}
            AskOutcome::Heard => unreachable!(),
        }
        turns += 1;
        if turns == MOST_TURNS {
            return Finding::HeldOut { turns };
        }
        setting.clock.pause();
        match poll.repeated_event(setting) {
            Ok(again) => event = again,
            Err(_) => return Finding::NoMemory,
        }
    }
}

// What came of a poll with this reply.
fn finding_of(reply: Reply, poll: Poll) -> Finding
    ensures { result ≡ finding_of reply poll }
{
    match reply {
        Reply::Polled(items) => Finding::Told(Reply::Polled(items), poll),
        other => Finding::Replied(other),
    }
}

// Tells the desk that the answer to a poll was lost, and answers how the connection ends: as is due,
// where the desk has heard it.
pub(crate) fn tell_lost<K: Desk, C: Clock, G: Gate>(
    setting: &Setting<'_, C>,
    desk: &mut K,
    gate: &mut G,
    poll: Poll,
    due: Ending,
) -> Ending
    requires fit { IsCharacters poll.session }
    ensures { (turn : Turn) × AsksLost (C.gives setting.now.clock.now) poll turn
        × DeskTakesTurns (K.seen desk.old) (K.seen desk.new) (turn ∷ [])
        × (result ≡ ending_heard due (outcome_of turn.asked)) }
{
    ending_heard(due, take_turn(desk, gate, poll.lost_event(setting)))
}

// How the connection ends where the desk was told so: as is due, where it has heard it.
fn ending_heard(due: Ending, outcome: AskOutcome) -> Ending
    ensures { result ≡ ending_heard due outcome }
{
    match outcome {
        AskOutcome::Spent { entries } => Ending::Unheard { entries },
        AskOutcome::NoMemory => Ending::NoMemory,
        AskOutcome::Replied(_) => due,
        AskOutcome::Heard => due,
        AskOutcome::Held => due,
    }
}
