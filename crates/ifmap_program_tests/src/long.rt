//! A connection of more posts than one can have.
use crate::desk::{CountingGate, PlainDesk, Plan};
use crate::dialogues::{push_answer, start};
use crate::repeating::RepeatingLink;
use ifmap_dialogue::{Ending, serve_connection};
use ifmap_http::Wire;
use ifmap_io::MemoryClock;
use rand_chacha::ChaCha20Rng;
use rand_core::SeedableRng;
use std::alloc::{AllocError as NoMemory, Global};
use std::test::Fail;

// A short post that is answered without asking the desk: its element is in no namespace of requests.
const POST: &str =
    "POST /ifmap HTTP/1.1\r\nifmap-client: c1\r\ncontent-length: 86\r\n\r\n<Envelope xmlns='http://www.w3.org/2003/05/soap-envelope'><Body><a/></Body></Envelope>";

const REFUSED: &str =
    "<errorResult errorCode=\"InvalidSchemaVersion\"><errorString>InvalidSchemaVersion</errorString></errorResult>";

// The answer to the post, which closes the connection or not.
fn answer(alloc: Global, close: bool) -> Result<Vec<u8>, NoMemory> {
    let mut text = String::new(alloc);
    push_answer(alloc, &mut text, REFUSED, close)?;
    text.as_bytes().to_vec(alloc)
}

// A link with so many posts left, of which the last that is answered closes the connection.
fn link_of(alloc: Global, posts: u64) -> Result<RepeatingLink, NoMemory> {
    let post = POST.as_bytes().to_vec(alloc)?;
    let due = answer(alloc, false)?;
    let end = answer(alloc, true)?;
    Ok(RepeatingLink::new(post, posts, due, end))
}

// Serves the link at a desk, and answers how the connection ended and what the link is then.
fn serve(
    alloc: Global,
    desk: &mut PlainDesk,
    gate: &mut CountingGate,
    link: RepeatingLink,
) -> (Ending, RepeatingLink) {
    let mut wire = Wire::new(alloc, link);
    let clock = MemoryClock::new(start(), 0, start());
    let mut words = ChaCha20Rng::from_seed([1; 32]);
    let ending = serve_connection(alloc, desk, &mut wire, &clock, &mut words, gate);
    (ending, wire.into_link())
}

#[test]
fn a_connection_is_closed_with_its_millionth_answer(rt: HostRuntime) -> Result<(), Fail> {
    let alloc = rt.alloc();
    let mut desk = PlainDesk::new(alloc, Vec::new(alloc), Plan::Answered, Plan::Answered);
    let mut gate = CountingGate {
        asks: 0,
        answers: 0,
    };
    let (ending, link) = serve(alloc, &mut desk, &mut gate, link_of(alloc, 1_000_001)?);
    assert!(rt; ending == Ending::Closed && gate.answers == 1_000_000);
    assert!(rt; link.has_ended_after(999_999) && link.has_left(1));
    assert!(rt; desk.noted.is_empty());
    Ok(())
}
