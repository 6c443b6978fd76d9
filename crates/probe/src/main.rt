//! Reads lines from its input, each a word that names a layer and what is put to it, and writes a line of
//! what the layer answers. It is for the rows of tests alone: no program is linked with it.
#![tactic(auto)]

mod client_lines;
mod client_sets;
mod command_words;
mod copies;
mod documents;
mod drips;
mod elements;
mod escapes;
mod filter_pairs;
mod filters;
mod identifiers;
mod meetings;
mod metadata;
mod moments;
mod outlines;
mod polls;
mod posts;
mod replies;
mod requests;
mod search_copies;
mod signs;
mod sizes;
mod tokens;

use crate::posts::Reading;
use std::alloc::{AllocError as NoMemory, Global};
use std::io;
use std::io::{BufRead, BufReader};

fn main(rt: HostRuntime) -> io::Result<()> {
    let input = BufReader::new(rt.alloc(), rt.reader())?;
    for line in input.lines(rt.alloc()) {
        let line = line?;
        let Ok(answer) = answer_of(rt.alloc(), line.as_str()) else {
            return Err(io::Error::from(io::ErrorKind::OutOfMemory));
        };
        println!(rt; "{answer}")?;
    }
    Ok(())
}

// What is answered to a line.
fn answer_of(alloc: Global, line: &str) -> Result<String, NoMemory> {
    let (layer, asked) = line.split_once(' ').unwrap_or((line, ""));
    match layer {
        "token" => tokens::answer_of(alloc, asked),
        "read" => elements::read_of(alloc, asked),
        "written" => elements::written_of(alloc, asked),
        "same" => elements::same_of(alloc, asked),
        "bare" => elements::bare_of(alloc, asked),
        "scope" => elements::scope_of(alloc, asked),
        "outline" => outlines::answer_of(alloc, asked),
        "identifier" => identifiers::answer_of(alloc, asked),
        "identifier-order" => identifiers::order_of(alloc, asked),
        "identifier-errors" => identifiers::errors(alloc),
        "identity-type" => identifiers::identity_type_of(alloc, asked),
        "link" => identifiers::link_of(alloc, asked),
        "metadata" => metadata::answer_of(alloc, asked),
        "metadata-alike" => metadata::alike_of(alloc, asked),
        "metadata-errors" => metadata::errors(alloc),
        "content" => metadata::content_of(alloc, asked),
        "stored" => metadata::stored_of(alloc, asked),
        "keys" => metadata::keys_of(alloc, asked),
        "types" => metadata::types_of(alloc, asked),
        "client-name" => metadata::client_name_of(alloc, asked),
        "client-order" => metadata::client_order_of(alloc, asked),
        "request" => requests::answer_of(alloc, asked),
        "request-length" => requests::length_of(alloc, asked),
        "reply" => replies::answer_of(alloc, asked),
        "reply-length" => replies::length_of(alloc, asked),
        "filter" => filters::answer_of(alloc, asked),
        "filter-among" => filters::answer_among(alloc, asked),
        "filter-parts" => filters::parts_of(alloc, asked),
        "filter-spaces" => filter_pairs::spaces_of(alloc, asked),
        "filter-serves" => filter_pairs::service_of(alloc, asked),
        "filter-copy" => filter_pairs::copy_of(alloc, asked),
        "meets" => meetings::answer_of(alloc, asked),
        "words" => command_words::answer_of(alloc, asked),
        "client-line" => client_lines::answer_of(alloc, asked),
        "client-set" => client_sets::answer_of(alloc, asked),
        "poll-size" => sizes::answer_of(alloc, asked),
        "too-big" => sizes::refusal_of(alloc, asked),
        "search-copy" => search_copies::answer_of(alloc, asked),
        "moment" => moments::answer_of(alloc, asked),
        "post" => posts::answer_of(alloc, Reading::Post, asked),
        "posts" => posts::answer_of(alloc, Reading::Posts, asked),
        "answer" => posts::answer_of(alloc, Reading::Answer, asked),
        "post-parts" => posts::parts_of(alloc, Reading::Post, asked),
        "answer-parts" => posts::parts_of(alloc, Reading::Answer, asked),
        "failing" => posts::failing_of(alloc, asked),
        "ask" => posts::ask_of(alloc, asked, posts::AFTER_FLUSH),
        "tell" => posts::tell_of(alloc, asked, posts::AFTER_FLUSH),
        _ => String::from_str(alloc, "no such layer"),
    }
}
