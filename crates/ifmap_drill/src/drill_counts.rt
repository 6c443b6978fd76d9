//! What a drill counts.
ghost use Rattle.std.specs.Prelude.{◌≡◌};
ghost use Rattle.ifmap_drill.specs.DrillCounts.{counts_of_ask, counts_of_event, counts_sum, no_counts, counts_of_reply, counts_of_request};

use ifmap_core::{Answer, Ask, Reply};
use ifmap_requests::Request;

/// The numbers of a summary, in its order. Each stands still at the greatest of its type.
#[derive(Clone, Copy, Debug, PartialEq, Eq)]
pub struct DrillCounts {
    /// Events whose result is no error.
    pub events: u64,
    /// Sessions that began.
    pub sessions: u64,
    pub subscribes: u64,
    pub publishes: u64,
    pub searches: u64,
    /// Polls, those too that are held.
    pub polls: u64,
    pub renewals: u64,
    /// Polls that are held.
    pub held: u64,
    /// Items that polls are told.
    pub told: u64,
    /// Links that carry something at the end.
    pub links: u64,
}

const NOTHING: DrillCounts = DrillCounts {
    events: 0,
    sessions: 0,
    subscribes: 0,
    publishes: 0,
    searches: 0,
    polls: 0,
    renewals: 0,
    held: 0,
    told: 0,
    links: 0,
};

const ONE_EVENT: DrillCounts = DrillCounts {
    events: 1,
    ..NOTHING
};

impl DrillCounts {
    // Nothing yet.
    pub(crate) fn new() -> DrillCounts
        ensures { result ≡ no_counts }
    {
        NOTHING
    }

    // Counts an event with its answer.
    pub(crate) fn count(&mut self, ask: &Ask, answer: &Answer)
        ensures { self.new ≡ counts_sum self.old (counts_of_event ask.now answer.now) }
    {
        let more = counts_of_event(ask, answer);
        *self = self.sum_with(&more);
    }

    // These and others together, with the links of these.
    fn sum_with(&self, more: &DrillCounts) -> DrillCounts
        ensures { result ≡ counts_sum self.now more.now }
    {
        DrillCounts {
            events: self.events.saturating_add(more.events),
            sessions: self.sessions.saturating_add(more.sessions),
            subscribes: self.subscribes.saturating_add(more.subscribes),
            publishes: self.publishes.saturating_add(more.publishes),
            searches: self.searches.saturating_add(more.searches),
            polls: self.polls.saturating_add(more.polls),
            renewals: self.renewals.saturating_add(more.renewals),
            held: self.held.saturating_add(more.held),
            told: self.told.saturating_add(more.told),
            links: self.links,
        }
    }
}

// What an event counts as, by its answer.
fn counts_of_event(ask: &Ask, answer: &Answer) -> DrillCounts
    ensures { result ≡ counts_of_event ask.now answer.now }
{
    let asked = counts_of_ask(ask);
    match answer {
        Answer::Reply(reply) => counts_of_reply(asked, reply),
        Answer::Held => DrillCounts { held: 1, ..asked },
        Answer::Heard => asked,
    }
}

// The same where it is a reply.
fn counts_of_reply(asked: DrillCounts, reply: &Reply) -> DrillCounts
    ensures { result ≡ counts_of_reply asked reply.now }
{
    match reply {
        Reply::Error { .. } => NOTHING,
        Reply::Polled(items) => DrillCounts {
            told: items.len() as u64,
            ..asked
        },
        _ => asked,
    }
}

// What a request counts as, where its result is no error.
fn counts_of_ask(ask: &Ask) -> DrillCounts
    ensures { result ≡ counts_of_ask ask.now }
{
    match ask {
        Ask::Request(request) => counts_of_request(request),
        Ask::Lost(_) => ONE_EVENT,
    }
}

fn counts_of_request(request: &Request) -> DrillCounts
    ensures { result ≡ counts_of_request request.now }
{
    match request {
        Request::NewSession { .. } => DrillCounts {
            sessions: 1,
            ..ONE_EVENT
        },
        Request::Subscribe { .. } => DrillCounts {
            subscribes: 1,
            ..ONE_EVENT
        },
        Request::Publish { .. } => DrillCounts {
            publishes: 1,
            ..ONE_EVENT
        },
        Request::Search { .. } => DrillCounts {
            searches: 1,
            ..ONE_EVENT
        },
        Request::Poll { .. } => DrillCounts {
            polls: 1,
            ..ONE_EVENT
        },
        Request::RenewSession { .. } => DrillCounts {
            renewals: 1,
            ..ONE_EVENT
        },
        _ => ONE_EVENT,
    }
}
