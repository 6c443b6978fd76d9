//! Rows of the words of a command line, each in double quotes: what they ask a program for.
use ifmap_command::{Form, form_of};
use ifmap_words::two_words;
use std::alloc::{AllocError as NoMemory, Global};

/// The answer to a program and its words.
pub fn answer_of(alloc: Global, asked: &str) -> Result<String, NoMemory> {
    let (program, words) = asked.split_once(' ').unwrap_or((asked, ""));
    let words = words_in(alloc, words)?;
    match program {
        "mapd" => form_text(alloc, form_of(alloc, words.as_slice())),
        "mapc" => pair_text(alloc, words.as_slice()),
        _ => String::from_str(alloc, "no such program"),
    }
}

// The words between double quotes.
fn words_in(alloc: Global, written: &str) -> Result<Vec<String>, NoMemory> {
    let mut words = Vec::new(alloc);
    for (i, part) in written.split('"').enumerate() {
        if i % 2 == 1 {
            words.push(String::from_str(alloc, part)?)?;
        }
    }
    Ok(words)
}

fn form_text(alloc: Global, form: Form) -> Result<String, NoMemory> {
    match form {
        Form::Replay => String::from_str(alloc, "replay"),
        Form::Drill { key, count } => format!(in alloc; "drill {key} {count}"),
        Form::Serve { address, workers } => {
            let address = address.as_str();
            format!(in alloc; "serve {address} {workers}")
        }
        Form::Wrong => String::from_str(alloc, "wrong"),
        Form::NoMemory => Err(NoMemory),
    }
}

fn pair_text(alloc: Global, words: &[String]) -> Result<String, NoMemory> {
    match two_words(alloc, "mapc", words)? {
        Some(pair) => {
            let (first, second) = (pair.first, pair.second);
            format!(in alloc; "\"{first}\" \"{second}\"")
        }
        None => String::from_str(alloc, "none"),
    }
}
