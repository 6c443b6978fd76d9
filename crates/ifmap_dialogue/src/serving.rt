//! Connections, served to their end.
ghost use Rattle.std.specs.Prelude.{IsFalse};
ghost use Rattle.ifmap_http.specs.Wires.{wire_seen};
ghost use Rattle.ifmap_dialogue.specs.Dialogue.{Serves};
ghost use Rattle.ifmap_dialogue.specs.Scenes.{scene};

use crate::desks::{Desk, Gate};
use crate::endings::Ending;
use crate::rounds::serve_round;
use crate::settings::Setting;
use ifmap_http::Wire;
use ifmap_io::{Clock, Link};
use rand_chacha::ChaCha20Rng;
use std::alloc::Global;

/// Serves a connection to its end: posts are read from the wire, what they mean is asked at the desk,
/// and the answers are written. A poll that is held is asked again after a pause, at most 36,000 times
/// in all, and a connection takes at most 1,000,000 posts. Where what a poll is told was not written
/// whole, the desk is told that it is lost. The random words of events are taken from the stream. The
/// gate is passed before each ask and after each answer that was written whole.
pub fn serve_connection<K: Desk, L: Link, C: Clock, G: Gate>(
    alloc: Global,
    desk: &mut K,
    wire: &mut Wire<L>,
    clock: &C,
    words: &mut ChaCha20Rng,
    gate: &mut G,
) -> Ending
    requires { IsFalse wire.old.spent }
    ensures { let seen = wire_seen L.left L.held L.Source.faults L.Sink.faults in
        Serves (C.gives clock.now) (scene (K.seen desk.old) (seen wire.old) words.old)
        (scene (K.seen desk.new) (seen wire.new) words.new) result }
{
    let setting = Setting { alloc, clock };
    let mut number = 1;
    'posts: loop {
        if let Some(ending) = serve_round(&setting, desk, wire, words, gate, number) {
            return ending;
        }
        number += 1;
    }
}
