//! The outside of the program: stands over a listener, a random key, and what shows a drill's progress.
ghost use Rattle.std.specs.Prelude.{◌≡◌, IfOk, length};

use ifmap_dialogue::Gate;
use ifmap_drill::Progress;
use ifmap_io::TcpDoor;
use ifmap_serving::Stand;
use std::alloc::{AllocError as NoMemory, Global};
use std::io;
use std::net::TcpListener;
use std::random::RandomSource;

/// A gate that holds nobody up.
#[derive(Clone, Copy, Debug)]
pub struct OpenGate;

impl Gate for OpenGate {
    fn pass(&mut self, _point: u32) {}
}

/// Shows on standard error how far a drill has come, where that is a terminal.
#[derive(Drop)]
pub struct ProgressLine<'a, R> {
    rt: &'a R,
    is_shown: bool,
}

impl<'a, R: Eprint> ProgressLine<'a, R> {
    /// A line that is shown where standard error is a terminal.
    pub fn new(rt: &'a R, is_shown: bool) -> ProgressLine<'a, R> {
        ProgressLine { rt, is_shown }
    }
}

impl<'a, R: Eprint> Progress for ProgressLine<'a, R> {
    fn show(&mut self, done: u32, of: u32) {
        if self.is_shown {
            let _shown = if done < of {
                eprint!(self.rt; "\r{done} of {of} events")
            } else {
                eprint!(self.rt; "\r\x1b[K")
            };
        }
    }
}

/// A stand for each worker, all of which take their connections from one listener.
pub fn stands_at(
    alloc: Global,
    listener: &TcpListener,
    workers: u32,
) -> Result<Vec<Stand<TcpDoor<'_>, OpenGate>>, NoMemory>
    ensures { IfOk result (λ stands. length stands.items ≡ workers) }
{
    let mut stands = Vec::new(alloc);
    for _ in 0..workers {
        stands.push(Stand::new(TcpDoor::new(listener), OpenGate))?;
    }
    Ok(stands)
}

/// A random key from the system.
pub fn random_key(rt: &impl RandomSource) -> io::Result<[u8; 32]> {
    let mut key = [0; 32];
    rt.fill_bytes(&mut key)?;
    Ok(key)
}
