//! The forms of the words.
ghost use Rattle.std.specs.Prelude.{◌≡◌, ◌≢◌, ◌≤◌, ◌↔◌, ◌∷◌, ℕ, [], codes, false, IfOk, IsTrue, map, string_bytes};
ghost use Rattle.std.specs.Fmt.{decimal};
ghost use Rattle.std.specs.Option.{MatchOption};
ghost use Rattle.ifmap_words.specs.Options.{is_option};
ghost use Rattle.ifmap_command.specs.Words.{Asks};

use crate::commands::read_words;
use ifmap_elem::Text;
use ifmap_words::decimal_number;
use std::alloc::{AllocError as NoMemory, Global};

/// The most events of a drill.
pub const MOST_EVENTS: u32 = 100_000;
/// The most workers of a server.
pub const MOST_WORKERS: u32 = 256;

/// What the words ask for.
#[derive(Debug, Drop)]
pub enum Form {
    /// `replay`: frames from the source are answered to the sink.
    Replay,
    /// `drill KEY COUNT`: so many events, from 1 to 100,000, are made of the key and carried out.
    Drill { key: u64, count: u32 },
    /// `serve ADDRESS WORKERS`: the address, which is not empty, is served by so many workers, from
    /// 1 to 256.
    Serve { address: Text, workers: u32 },
    /// None of these.
    Wrong,
    /// Want of memory. Nothing is said of the words.
    NoMemory,
}

/// The form of the words, the program's name left out. Numbers are decimals without a sign and
/// without a leading zero, `0` alone excepted; where a word begins with a hyphen they are of no form.
pub fn form_of(alloc: Global, words: &[String]) -> Form
    ensures { Asks (map string_bytes words.now) result }
{
    match read_words(alloc, words) {
        Ok(form) => form,
        Err(_) => Form::NoMemory,
    }
}

// What two words after `drill` ask for.
pub(crate) fn drill_form(key: &str, count: &str) -> Form
    ensures { Asks (codes "drill" ∷ key.now ∷ count.now ∷ []) result }
{
    let Some(key) = decimal_number(key) else {
        return Form::Wrong;
    };
    let Some(count) = number_within(count, MOST_EVENTS) else {
        return Form::Wrong;
    };
    Form::Drill { key, count }
}

// What two words after `serve` ask for, of which the first is no option.
pub(crate) fn serve_form(alloc: Global, address: &str, workers: &str) -> Result<Form, NoMemory>
    ensures { is_option address.now ≡ false → IfOk result
        (Asks (codes "serve" ∷ address.now ∷ workers.now ∷ [])) }
{
    if address.is_empty() {
        return Ok(Form::Wrong);
    }
    let Some(workers) = number_within(workers, MOST_WORKERS) else {
        return Ok(Form::Wrong);
    };
    let address = Text::from_str(alloc, address)?;
    Ok(Form::Serve { address, workers })
}

// The number from 1 to `most` that a text writes in decimal.
fn number_within(text: &str, most: u32) -> Option<u32>
    ensures { MatchOption result
        ((n : ℕ) → 1 ≤ n → n ≤ most → text.now ≢ decimal n)
        (λ n. (1 ≤ n) × (n ≤ most) × (text.now ≡ decimal n)) }
{
    let number = decimal_number(text)?;
    if is_within(number, most) {
        Some(number as u32)
    } else {
        None
    }
}

fn is_within(number: u64, most: u32) -> bool
    ensures { IsTrue result ↔ ((1 ≤ number) × (number ≤ most)) }
{
    1 <= number && number <= u64::from(most)
}
