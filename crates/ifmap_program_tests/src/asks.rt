//! Events of clients, and what is in use after each.
ghost use Rattle.std.specs.Prelude.{◌≡◌, ◌<◌};

use crate::bodies::{client_of, request_of};
use ifmap_core::{Answer, Ask, Core, Event};
use ifmap_io::Moment;
use ifmap_replies::Reply;
use ifmap_steps::Steps;
use std::alloc::{AllocError as NoMemory, Global};
use std::marker::Brand;
use std::sync::ledger::{Blank, Ledger};

// What a client asks, at the moment 1000000000 and with the random word 1.
fn event_of(alloc: Global, name: &str, inner: &str) -> Result<Event, NoMemory> {
    let request = request_of(alloc, inner)?;
    let client = client_of(alloc, name)?;
    // The look tells the proof that the client has a name.
    let _ = client.text();
    Ok(Event {
        moment: Moment::new(1_000_000_000).unwrap(),
        client,
        random: 1,
        again: false,
        bytes: 0,
        ask: Ask::Request(request),
    })
}

// How many entries an answer has, where it tells what a search found.
fn entries_of(answer: Answer) -> usize {
    match answer {
        Answer::Reply(Reply::Found(entries)) => entries.len(),
        _ => 0,
    }
}

// Steps the core, with a counter that nobody reads.
fn step_with<L: Ledger>(
    core: &mut Core,
    alloc: Global,
    event: &Event,
    blank: Blank,
) -> Result<Answer, NoMemory>
    requires name { blank.name ≡ L.name }
    requires parts { blank.parts ≡ L.parts }
    requires some { 0 < blank.parts }
{
    let mut steps: Steps<L> = Steps::from_blank(blank);
    core.step(alloc, event, &mut steps)
}

// What there is after an answer: the identifiers in use, the links, and the entries that were found.
#[derive(Clone, Copy, Debug, PartialEq)]
pub(crate) struct Counts {
    pub(crate) identifiers: u64,
    pub(crate) links: u64,
    pub(crate) found: usize,
}

// A client asks what stands in a body.
pub(crate) fn ask(
    alloc: Global,
    core: &mut Core,
    name: &str,
    inner: &str,
) -> Result<Counts, NoMemory> {
    let event = event_of(alloc, name, inner)?;
    let answer = step_with::<Brand>(core, alloc, &event, Blank::new(1))?;
    Ok(Counts {
        identifiers: core.identifiers(),
        links: core.links(),
        found: entries_of(answer),
    })
}
