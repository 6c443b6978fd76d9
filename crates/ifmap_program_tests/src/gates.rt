//! Gates by which one worker waits for another.
use ifmap_serving::{AFTER_ANSWER, Gate};
use std::sync::atomic::{AtomicU64, Ordering};
use std::thread;
use std::time::{Clock, Duration};

// How many milliseconds a gate waits at most.
const PATIENCE: u32 = 20_000;

/// A gate that counts the answers of its worker, and before one ask waits until another worker has
/// written so many. After a while it lets go, and says so.
#[derive(Drop)]
pub struct WaitingGate<'a, R> {
    rt: &'a R,
    ours: &'a AtomicU64,
    theirs: &'a AtomicU64,
    // Before the ask of which number it waits, counted from 0, and for how many answers.
    ask: u64,
    answers: u64,
    asks: u64,
    let_go: bool,
}

impl<'a, R: Clock> WaitingGate<'a, R> {
    /// A gate that counts at `ours`. Before the ask of this number, counted from 0, it waits until
    /// `theirs` has come to so many answers.
    pub fn new(
        rt: &'a R,
        ours: &'a AtomicU64,
        theirs: &'a AtomicU64,
        ask: u64,
        answers: u64,
    ) -> WaitingGate<'a, R> {
        WaitingGate {
            rt,
            ours,
            theirs,
            ask,
            answers,
            asks: 0,
            let_go: false,
        }
    }

    /// It waited for too long, and let go.
    pub fn has_let_go(&self) -> bool {
        self.let_go
    }

    // Waits for the answers.
    fn wait(&mut self) {
        for _ in 0..PATIENCE {
            if self.theirs.load(Ordering::SeqCst) >= self.answers {
                return;
            }
            thread::sleep(self.rt, Duration::from_millis(1));
        }
        self.let_go = true;
    }
}

impl<'a, R: Clock> Gate for WaitingGate<'a, R> {
    fn pass(&mut self, point: u32) {
        if point == AFTER_ANSWER {
            self.ours.fetch_add(1, Ordering::SeqCst);
            return;
        }
        if self.asks == self.ask {
            self.wait();
        }
        self.asks = self.asks.saturating_add(1);
    }
}
