//! What each event of a drill asks.
ghost use Rattle.std.specs.Prelude.{◌≡◌};
ghost use Rattle.ifmap_drill.specs.Tasks.{block_task, task_at};

// How many clients there are, each of which has one event in a block.
pub(crate) const CLIENT_COUNT: u32 = 10;

// The first events: a session and a subscription of each client.
const OPENING_EVENTS: u32 = 20;

/// What an event asks.
#[derive(Clone, Copy, Debug, PartialEq, Eq)]
pub enum Task {
    /// A new session.
    Begin,
    /// A subscription.
    Subscribe,
    /// That a link carries the drill's element.
    Update,
    /// That a link carries nothing.
    Delete,
    /// A search.
    Search,
    /// A poll.
    Poll,
    /// A sign of life.
    Renew,
}

// What event `i` asks.
pub(crate) fn task_at(i: u32) -> Task
    ensures { result ≡ task_at i }
{
    if i < CLIENT_COUNT {
        Task::Begin
    } else if i < OPENING_EVENTS {
        Task::Subscribe
    } else {
        block_task(i / CLIENT_COUNT % 10)
    }
}

// What the ten events of a block ask, by the last digit of its number.
fn block_task(digit: u32) -> Task
    ensures { result ≡ block_task digit }
{
    match digit {
        0..=5 => Task::Update,
        6 => Task::Delete,
        7 => Task::Search,
        8 => Task::Poll,
        _ => Task::Renew,
    }
}
