//! Heads, as they come from a source.
ghost use Rattle.std.specs.Prelude.{◌≡◌, ◌≢◌, ◌≤◌, ℕ, List, IfNone, IfSome, Option, length};
ghost use Rattle.std.specs.Io.KnownBytes.{IsAtEnd};
ghost use Rattle.ifmap_io.specs.Causes.{Rose};
ghost use Rattle.httparse.specs.Grammar.{RequestHead};
ghost use Rattle.ifmap_heads.specs.Heads.{HasNoPostHead, IsPostHead};
ghost use Rattle.ifmap_heads.specs.Limits.{longest_head};
ghost use Rattle.ifmap_input.specs.Inputs.{TakesFromSource, UsesOneSide};
ghost use Rattle.ifmap_http.specs.Heads.{AwaitsAnswer, AwaitsPost, UnlessAnswerFails, UnlessPostFails};

use crate::dues::HeadProgress;
use http::StatusCode;
use ifmap_heads::{
    AnswerStart, PostStart, PostTerms, passes_lines, read_answer_head, read_post_head,
};
use ifmap_input::{Input, InputError};
use ifmap_io::Source;
use std::alloc::Global;

// What came of waiting for the head of a post.
#[derive(Drop)]
pub(crate) enum AwaitedPost {
    Taken(usize, PostTerms),
    Refused(u16),
    Ended,
    Truncated,
    ReadFault,
    NoMemory,
}

// What came of waiting for the head of an answer.
#[derive(Clone, Copy)]
pub(crate) enum AwaitedAnswer {
    Sized(usize, usize),
    Refused(usize, u16),
    NotHttp,
    Ended,
    ReadFault,
    NoMemory,
}

// Waits for the head of a post. The source is left alone where one was taken from it before.
#[tactic(auto, using(ifmap_input::specs::InputLaws::takes_nothing, crate::proofs::Failing::unless_post))]
pub(crate) fn await_post<S: Source>(alloc: Global, input: &mut Input, source: &mut S) -> AwaitedPost
    ensures taken { UnlessPostFails result
        (TakesFromSource (S.left source.old) (S.left source.new) input.old input.new) }
    ensures is { AwaitsPost input.new (S.left source.new) result }
    ensures fault { result ≡ AwaitedPost.ReadFault
        → Rose (S.faults source.old) (S.faults source.new) }
    ensures side { UsesOneSide S.left S.faults S.outgoing source.old source.new }
    ensures quiet { (head : RequestHead) (rest : List ℕ) → IsPostHead input.old head rest
        → (source.new ≡ source.old) × (input.new ≡ input.old) }
{
    let mut progress = HeadProgress::new();
    if let Some(awaited) = look_at_post(alloc, &mut progress, input.pending_bytes()) {
        return awaited;
    }
    await_more(alloc, progress, input, source)
}

// Waits for the head of a post, of which some bytes were looked at.
#[tactic(auto, using(ifmap_input::specs::InputLaws::takes_nothing, ifmap_input::specs::InputLaws::takes_more, ifmap_input::specs::InputLaws::uses_nothing, ifmap_input::specs::InputLaws::uses_more, ifmap_io::specs::Rises::rose_since))]
fn await_more<S: Source>(
    alloc: Global,
    progress: HeadProgress,
    input: &mut Input,
    source: &mut S,
) -> AwaitedPost
    ensures taken { UnlessPostFails result
        (TakesFromSource (S.left source.old) (S.left source.new) input.old input.new) }
    ensures is { AwaitsPost input.new (S.left source.new) result }
    ensures fault { result ≡ AwaitedPost.ReadFault
        → Rose (S.faults source.old) (S.faults source.new) }
    ensures side { UsesOneSide S.left S.faults S.outgoing source.old source.new }
{
    let mut progress = progress;
    'head: loop {
        if let Some(awaited) = look_at_post(alloc, &mut progress, input.pending_bytes()) {
            return awaited;
        }
        match input.fill(source) {
            Ok(true) => {}
            Ok(false) => return end_post(alloc, input.pending_bytes()),
            Err(InputError::ReadFault) => return AwaitedPost::ReadFault,
            Err(InputError::NoMemory) => return AwaitedPost::NoMemory,
        }
    }
}

// What the bytes of a post so far are, whatever comes after them; `None` where more is to be waited for.
fn look_at_post(alloc: Global, progress: &mut HeadProgress, bytes: &[u8]) -> Option<AwaitedPost>
    ensures none { IfNone result (length bytes.now ≤ longest_head) }
    ensures first { IfNone result (progress.old.parsed ≡ 0 → HasNoPostHead bytes.now) }
    ensures some { IfSome result (λ awaited. (left : Option (List ℕ))
        → AwaitsPost bytes.now left awaited) }
    ensures never { IfSome result (λ awaited. awaited ≢ AwaitedPost.ReadFault) }
{
    if !progress.is_worth_parsing(bytes) {
        return None;
    }
    match read_post_head(alloc, bytes) {
        Ok(PostStart::Taken(size, terms)) => Some(AwaitedPost::Taken(size, terms)),
        Ok(PostStart::Refused(status)) => Some(AwaitedPost::Refused(status)),
        Ok(PostStart::Unfinished) => None,
        Err(_) => Some(AwaitedPost::NoMemory),
    }
}

// What the bytes of a post are, after which nothing comes.
fn end_post(alloc: Global, bytes: &[u8]) -> AwaitedPost
    ensures is { (left : Option (List ℕ)) → IsAtEnd left → AwaitsPost bytes.now left result }
    ensures never { result ≢ AwaitedPost.ReadFault }
{
    if bytes.is_empty() {
        return AwaitedPost::Ended;
    }
    match read_post_head(alloc, bytes) {
        Ok(PostStart::Taken(size, terms)) => AwaitedPost::Taken(size, terms),
        Ok(PostStart::Refused(status)) => AwaitedPost::Refused(status),
        Ok(PostStart::Unfinished) => {
            if passes_lines(bytes) {
                AwaitedPost::Refused(StatusCode::BAD_REQUEST.as_u16())
            } else {
                AwaitedPost::Truncated
            }
        }
        Err(_) => AwaitedPost::NoMemory,
    }
}

// Waits for the head of an answer.
#[tactic(auto, using(ifmap_input::specs::InputLaws::takes_nothing, ifmap_input::specs::InputLaws::takes_more, ifmap_input::specs::InputLaws::uses_nothing, ifmap_input::specs::InputLaws::uses_more, ifmap_io::specs::Rises::rose_since))]
pub(crate) fn await_answer<S: Source>(input: &mut Input, source: &mut S) -> AwaitedAnswer
    ensures taken { UnlessAnswerFails result
        (TakesFromSource (S.left source.old) (S.left source.new) input.old input.new) }
    ensures is { AwaitsAnswer input.new (S.left source.new) result }
    ensures fault { result ≡ AwaitedAnswer.ReadFault
        → Rose (S.faults source.old) (S.faults source.new) }
    ensures side { UsesOneSide S.left S.faults S.outgoing source.old source.new }
{
    let mut progress = HeadProgress::new();
    'head: loop {
        if let Some(awaited) = look_at_answer(&mut progress, input.pending_bytes()) {
            return awaited;
        }
        match input.fill(source) {
            Ok(true) => {}
            Ok(false) => return end_answer(input.pending_bytes()),
            Err(InputError::ReadFault) => return AwaitedAnswer::ReadFault,
            Err(InputError::NoMemory) => return AwaitedAnswer::NoMemory,
        }
    }
}

// What the bytes of an answer so far are, whatever comes after them; `None` where more is to be waited
// for.
fn look_at_answer(progress: &mut HeadProgress, bytes: &[u8]) -> Option<AwaitedAnswer>
    ensures none { IfNone result (length bytes.now ≤ longest_head) }
    ensures some { IfSome result (λ awaited. (left : Option (List ℕ))
        → AwaitsAnswer bytes.now left awaited) }
    ensures never { IfSome result (λ awaited. awaited ≢ AwaitedAnswer.ReadFault) }
{
    if !progress.is_worth_parsing(bytes) {
        return None;
    }
    match read_answer_head(bytes) {
        AnswerStart::Sized(size, body) => Some(AwaitedAnswer::Sized(size, body)),
        AnswerStart::Refused(size, status) => Some(AwaitedAnswer::Refused(size, status)),
        AnswerStart::NotHttp => Some(AwaitedAnswer::NotHttp),
        AnswerStart::Unfinished => None,
    }
}

// What the bytes of an answer are, after which nothing comes.
fn end_answer(bytes: &[u8]) -> AwaitedAnswer
    ensures is { (left : Option (List ℕ)) → IsAtEnd left → AwaitsAnswer bytes.now left result }
    ensures never { result ≢ AwaitedAnswer.ReadFault }
{
    match read_answer_head(bytes) {
        AnswerStart::Sized(size, body) => AwaitedAnswer::Sized(size, body),
        AnswerStart::Refused(size, status) => AwaitedAnswer::Refused(size, status),
        AnswerStart::NotHttp => AwaitedAnswer::NotHttp,
        AnswerStart::Unfinished => {
            if passes_lines(bytes) {
                AwaitedAnswer::NotHttp
            } else {
                AwaitedAnswer::Ended
            }
        }
    }
}
