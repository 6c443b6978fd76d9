//! Clocks.
ghost use Rattle.std.specs.Prelude.{◌≡◌, ◌≤◌, ℕ, ⊤};
ghost use Rattle.ifmap_io.specs.Memory.{moment_after};

use crate::moments::Moment;
use std::marker::Model;
use std::sync::atomic::{AtomicU64, Ordering};
use std::time::{Duration, SystemTime, UNIX_EPOCH};
use std::{thread, time};

/// What tells the moment.
pub trait Clock {
    /// The moments that it can give, which no call changes.
    ghost gives: { Self → ℕ → Type 0 };

    /// A moment that it can give.
    fn now(&self) -> Moment
        ensures { gives self.now result };

    /// Lets some time pass. Nothing is claimed of how much.
    fn pause(&self);
}

/// A clock in memory, which goes on at each pause alone. It can be shared between threads, and
/// contracts do not see how often it has paused.
#[derive(Drop)]
pub struct MemoryClock {
    first: Moment,
    step: u64,
    last: Moment,
    pauses: AtomicU64,
}

impl Model for MemoryClock {
    ghost use Rattle.std.specs.Prelude.{◌≤◌};
    ghost use Rattle.ifmap_io.specs.Memory.{Dial};

    ghost Value = { Dial };

    ghost view = { λ c. record { first = c.first; step = c.step; last = c.last } };

    ghost invariant = { λ c. c.first ≤ c.last };
}

impl MemoryClock {
    /// A clock that begins at `first`, goes on by `step` seconds at each pause, and stays at `last`.
    pub fn new(first: Moment, step: u64, last: Moment) -> MemoryClock
        requires { first ≤ last }
        ensures { result ≡ record { first = first; step = step; last = last } }
    {
        MemoryClock {
            first,
            step,
            last,
            pauses: AtomicU64::new(0),
        }
    }
}

impl Clock for MemoryClock {
    ghost use Rattle.std.specs.Prelude.{◌≤◌};

    ghost gives = { λ c moment. (c.first ≤ moment) × (moment ≤ c.last) };

    fn now(&self) -> Moment
        ensures gives { (self.now.first ≤ result) × (result ≤ self.now.last) }
        ensures reached { (pauses : ℕ) × (result ≡ moment_after self.now pauses) }
    {
        let pauses = self.pauses.load(Ordering::SeqCst);
        let passed = pauses.saturating_mul(self.step);
        let reached = self.first.seconds().saturating_add(passed);
        Moment::clamp_seconds(reached.min(self.last.seconds()))
    }

    fn pause(&self) {
        self.pauses.fetch_add(1, Ordering::SeqCst);
    }
}

// How long a pause of the system's clock asks the system to sleep, in milliseconds.
const PAUSE: u64 = 50;

/// The system's clock, over the runtime. It claims nothing of its moments. It gives the moment 0
/// where the system's clock cannot be read, and the greatest moment where that is past it.
#[derive(Drop)]
pub struct SystemClock<R> {
    rt: R,
}

impl<R: time::Clock> SystemClock<R> {
    /// The system's clock, by that runtime.
    pub fn new(rt: R) -> SystemClock<R> {
        SystemClock { rt }
    }
}

impl<R: time::Clock> Clock for SystemClock<R> {
    ghost gives = { λ _ _. ⊤ };

    fn now(&self) -> Moment {
        Moment::clamp_seconds(seconds_since_1970(&self.rt))
    }

    fn pause(&self) {
        thread::sleep(&self.rt, Duration::from_millis(PAUSE))
    }
}

// The system's time in seconds, or 0 where it cannot be read.
fn seconds_since_1970(rt: &impl time::Clock) -> u64 {
    let Ok(now) = SystemTime::now(rt) else {
        return 0;
    };
    match now.duration_since(UNIX_EPOCH) {
        Ok(passed) => passed.as_secs(),
        Err(_) => 0,
    }
}
