//! The kinds of results, by the names of their elements.
ghost use Rattle.std.specs.Prelude.{◌≡◌};
ghost use Rattle.ifmap_replies.specs.ResultForms.{entries_local, poll_kind_of, poll_local, result_kind_of, result_local};

use ifmap_elem::Name;

/// Which result a reply is.
#[derive(Clone, Copy)]
pub enum ResultKind {
    NewSession,
    Renewed,
    Ended,
    Published,
    Subscribed,
    Purged,
    Found,
    Polled,
    Error,
}

const RESULT_KINDS: [ResultKind; 9] = [
    ResultKind::NewSession,
    ResultKind::Renewed,
    ResultKind::Ended,
    ResultKind::Published,
    ResultKind::Subscribed,
    ResultKind::Purged,
    ResultKind::Found,
    ResultKind::Polled,
    ResultKind::Error,
];

impl ResultKind {
    // The local name of its element.
    fn local_name(self) -> &'static str
        ensures { result.now ≡ result_local self }
    {
        match self {
            ResultKind::NewSession => "newSessionResult",
            ResultKind::Renewed => "renewSessionResult",
            ResultKind::Ended => "endSessionResult",
            ResultKind::Published => "publishReceived",
            ResultKind::Subscribed => "subscribeReceived",
            ResultKind::Purged => "purgePublisherReceived",
            ResultKind::Found => "searchResult",
            ResultKind::Polled => "pollResult",
            ResultKind::Error => "errorResult",
        }
    }
}

// The kind of the result of this name.
pub(crate) fn result_kind_of(name: &Name) -> Option<ResultKind>
    ensures { result ≡ result_kind_of name.now }
{
    RESULT_KINDS
        .iter()
        .copied()
        .find(|kind| name.is_bare(kind.local_name()))
}

/// Which entries a poll is told.
#[derive(Clone, Copy)]
pub enum EntriesKind {
    Search,
    Update,
    Delete,
    Notify,
}

/// What a poll is told.
#[derive(Clone, Copy)]
pub enum PollKind {
    Entries(EntriesKind),
    Error,
}

const POLL_KINDS: [PollKind; 5] = [
    PollKind::Entries(EntriesKind::Search),
    PollKind::Entries(EntriesKind::Update),
    PollKind::Entries(EntriesKind::Delete),
    PollKind::Entries(EntriesKind::Notify),
    PollKind::Error,
];

impl PollKind {
    // The local name of its element.
    fn local_name(self) -> &'static str
        ensures { result.now ≡ poll_local self }
    {
        match self {
            PollKind::Entries(kind) => entries_local(kind),
            PollKind::Error => "errorResult",
        }
    }
}

fn entries_local(kind: EntriesKind) -> &'static str
    ensures { result.now ≡ entries_local kind }
{
    match kind {
        EntriesKind::Search => "searchResult",
        EntriesKind::Update => "updateResult",
        EntriesKind::Delete => "deleteResult",
        EntriesKind::Notify => "notifyResult",
    }
}

// The kind of the element of this name in what a poll is told.
pub(crate) fn poll_kind_of(name: &Name) -> Option<PollKind>
    ensures { result ≡ poll_kind_of name.now }
{
    POLL_KINDS
        .iter()
        .copied()
        .find(|kind| name.is_bare(kind.local_name()))
}
