//! Work at a door: its connections are served one after another.
ghost use Rattle.ifmap_io.specs.Links.{wire_link_seen};
ghost use Rattle.ifmap_serving.specs.Connections.{ServesLink, worker};
ghost use Rattle.ifmap_serving.specs.Works.{IsWorkStatus, Works, door_seen};

use ifmap_desks::{Desk, Gate, serve_connection};
use ifmap_http::Wire;
use ifmap_io::statuses::{DONE, LINK_FAULT};
use ifmap_io::{Clock, Door, Link};
use rand_chacha::ChaCha20Rng;
use std::alloc::Global;
use std::sync::Wait;

/// Serves the connections of a door one after another, each over a wire of its own, and hands each
/// link back to the door. The status is 0 where the door has no link left, and 7 where it fails. The
/// random words of events are taken from the stream. Over a door whose links do not end it does not
/// return.
pub fn work<R: Wait, K: Desk, D: Door, C: Clock, G: Gate>(
    rt: &R,
    alloc: Global,
    desk: &mut K,
    door: &mut D,
    clock: &C,
    words: &mut ChaCha20Rng,
    gate: &mut G,
) -> u8
    ensures works { Works (C.gives clock.now)
        (worker (K.seen desk.old) words.old) (worker (K.seen desk.new) words.new)
        (door_seen D.links D.faults door.old) (door_seen D.links D.faults door.new) }
    ensures ends { IsWorkStatus
        (door_seen D.links D.faults door.old) (door_seen D.links D.faults door.new) result }
{
    for _ in rt.forever() {
        let Ok(next) = door.accept() else {
            return LINK_FAULT;
        };
        let Some(link) = next else {
            return DONE;
        };
        let link = serve_link(alloc, desk, link, clock, words, gate);
        door.ended(link);
    }
    unreachable!()
}

// Serves a connection over that link to its end, and gives the link back.
fn serve_link<K: Desk, L: Link, C: Clock, G: Gate>(
    alloc: Global,
    desk: &mut K,
    link: L,
    clock: &C,
    words: &mut ChaCha20Rng,
    gate: &mut G,
) -> L
    ensures { let seen = wire_link_seen L.left L.held L.Source.faults L.Sink.faults in
        ServesLink (C.gives clock.now) (worker (K.seen desk.old) words.old)
        (worker (K.seen desk.new) words.new) (seen link) (seen result) }
{
    let mut wire = Wire::new(alloc, link);
    serve_connection(alloc, desk, &mut wire, clock, words, gate);
    wire.into_link()
}
