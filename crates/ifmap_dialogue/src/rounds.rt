//! Rounds: a post is read and answered.
ghost use Rattle.std.specs.Prelude.{◌≡◌, ◌≢◌, ◌≤◌, ℕ, IsFalse, IfNone, List, length};
ghost use Rattle.rand_chacha.specs.ChaCha.{ChaCha};
ghost use Rattle.ifmap_elem.specs.Chars.{IsCharacters};
ghost use Rattle.ifmap_http.specs.ifmap_heads.Limits.{longest_post};
ghost use Rattle.ifmap_http.specs.Wires.{wire_seen};
ghost use Rattle.ifmap_dialogue.specs.Answers.{LosesUnlessDone, closes};
ghost use Rattle.ifmap_dialogue.specs.Desks.{DeskTakesTurns, Turn};
ghost use Rattle.ifmap_dialogue.specs.Rounds.{is_last_post, most_posts};
ghost use Rattle.ifmap_dialogue.specs.Scenes.{HasFitPoll, ServesAnswer, ServesPost, ServesRound, scene};

use crate::consulting::consult;
use crate::desks::{Desk, Gate};
use crate::endings::Ending;
use crate::findings::Finding;
use crate::polls::Poll;
use crate::post_asks::tell_lost;
use crate::sending::{
    BAD_REQUEST, INSUFFICIENT_STORAGE, Then, end_after, give_up, next_after, send_bare, send_reply,
};
use crate::settings::Setting;
use ifmap_http::{Got, Post, Sent, Wire};
use ifmap_io::{Clock, Link};
use ifmap_machine::bodies_mean_fit_requests;
use rand_chacha::ChaCha20Rng;

/// The most posts of a connection.
pub const MOST_POSTS: u32 = 1_000_000;

// Reads the post of this number and answers it; `None` where the connection goes on.
pub(crate) fn serve_round<K: Desk, L: Link, C: Clock, G: Gate>(
    setting: &Setting<'_, C>,
    desk: &mut K,
    wire: &mut Wire<L>,
    words: &mut ChaCha20Rng,
    gate: &mut G,
    number: u32,
) -> Option<Ending>
    requires { IsFalse wire.old.spent }
    ensures serves { let seen = wire_seen L.left L.held L.Source.faults L.Sink.faults in
        ServesRound (C.gives setting.now.clock.now) number
        (scene (K.seen desk.old) (seen wire.old) words.old)
        (scene (K.seen desk.new) (seen wire.new) words.new) result }
    ensures more { IfNone result (IsFalse wire.new.spent × (number ≢ most_posts)) }
{
    match wire.read_post(setting.alloc) {
        Got::Posted(post) => {
            let post = close_last_post(post, number);
            answer_post(setting, desk, wire, words, gate, post)
        }
        Got::Ended => Some(Ending::Ended),
        Got::Truncated => Some(Ending::Truncated),
        Got::Status(status) => {
            let sent = send_bare(setting.alloc, wire, gate, status);
            next_after(sent, Some(Ending::Refused(status)))
        }
        Got::ReadFault => Some(Ending::ReadFault),
        Got::NoMemory => {
            give_up(setting.alloc, wire, gate);
            Some(Ending::NoMemory)
        }
    }
}

// The post, which is the last one where it has that number.
fn close_last_post(post: Post, number: u32) -> Post
    ensures { result ≡ record post { close = is_last_post number post.close } }
{
    let Post {
        client,
        body,
        close,
    } = post;
    Post {
        client,
        body,
        close: close || number == MOST_POSTS,
    }
}

// Answers a post; `None` where the connection goes on.
fn answer_post<K: Desk, L: Link, C: Clock, G: Gate>(
    setting: &Setting<'_, C>,
    desk: &mut K,
    wire: &mut Wire<L>,
    words: &mut ChaCha20Rng,
    gate: &mut G,
    post: Post,
) -> Option<Ending>
    requires short { length post.body ≤ longest_post }
    ensures { let seen = wire_seen L.left L.held L.Source.faults L.Sink.faults in
        ServesPost (C.gives setting.now.clock.now)
        (scene (K.seen desk.old) (seen wire.old) words.old)
        (scene (K.seen desk.new) (seen wire.new) words.new) post result }
{
    let then = after_post(&post);
    let Post {
        client,
        body,
        close: _,
    } = post;
    bodies_mean_fit_requests();
    let finding = consult(setting, desk, words, gate, client, &body);
    answer(setting, desk, wire, gate, finding, then)
}

// What is done after the answer to a post.
fn after_post(post: &Post) -> Then
    ensures { closes result ≡ post.now.close }
{
    if post.close { Then::Close } else { Then::GoOn }
}

// Answers what a post came to.
fn answer<K: Desk, L: Link, C: Clock, G: Gate>(
    setting: &Setting<'_, C>,
    desk: &mut K,
    wire: &mut Wire<L>,
    gate: &mut G,
    finding: Finding,
    then: Then,
) -> Option<Ending>
    requires fit { HasFitPoll finding }
    ensures { let seen = wire_seen L.left L.held L.Source.faults L.Sink.faults in
        (words : ChaCha) → ServesAnswer (C.gives setting.now.clock.now)
        (scene (K.seen desk.old) (seen wire.old) words)
        (scene (K.seen desk.new) (seen wire.new) words)
        (record { finding = finding; close = closes then; next = result }) }
{
    match finding {
        Finding::Replied(reply) => {
            let sent = send_reply(setting.alloc, wire, gate, &reply, then);
            next_after(sent, end_after(then))
        }
        Finding::Told(reply, poll) => {
            let sent = send_reply(setting.alloc, wire, gate, &reply, then);
            conclude(setting, desk, gate, poll, sent, then)
        }
        Finding::Unreadable => {
            let sent = send_bare(setting.alloc, wire, gate, BAD_REQUEST);
            next_after(sent, Some(Ending::Refused(BAD_REQUEST)))
        }
        Finding::HeldOut { turns } => Some(Ending::HeldOut { turns }),
        Finding::Spent { entries } => {
            let sent = send_bare(setting.alloc, wire, gate, INSUFFICIENT_STORAGE);
            next_after(sent, Some(Ending::Spent { entries }))
        }
        Finding::NoMemory => {
            give_up(setting.alloc, wire, gate);
            Some(Ending::NoMemory)
        }
    }
}

// Goes on after the answer to a poll that was told something: the desk is told where it was lost.
fn conclude<K: Desk, C: Clock, G: Gate>(
    setting: &Setting<'_, C>,
    desk: &mut K,
    gate: &mut G,
    poll: Poll,
    sent: Sent,
    then: Then,
) -> Option<Ending>
    requires fit { IsCharacters poll.session }
    ensures { (turns : List Turn)
        × DeskTakesTurns (K.seen desk.old) (K.seen desk.new) turns
        × LosesUnlessDone (C.gives setting.now.clock.now) poll (closes then) sent turns
        result }
{
    match sent {
        Sent::Done => end_after(then),
        Sent::WriteFault => Some(tell_lost(setting, desk, gate, poll, Ending::WriteFault)),
        Sent::NoMemory => Some(tell_lost(setting, desk, gate, poll, Ending::NoMemory)),
    }
}
