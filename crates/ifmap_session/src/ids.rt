//! The ids of sessions.
ghost use Rattle.std.specs.Prelude.{◌≡◌, ℕ, ◌^◌, ◌<◌, ◌∷◌, ◌++◌, IfOk, List, Some};
ghost use Rattle.std.specs.Fmt.{decimal};
ghost use Rattle.ifmap_session.specs.SessionIds.{hyphen, session_id};

use ifmap_elem::Text;
use std::alloc::{AllocError as NoMemory, Global};
use uuid::Uuid;

/// The number before the first hyphen, if the text begins with one.
pub fn serial_of(id: &str) -> Option<u64>
    ensures { (serial : ℕ) (rest : List ℕ) → serial < 2 ^ 64
        → id.now ≡ decimal serial ++ hyphen ∷ rest → result ≡ Some serial }
{
    let (digits, _) = id.split_once('-')?;
    digits.parse::<u64>().ok()
}

/// The id of the session with that serial. The one error is want of memory.
pub fn new_id(alloc: Global, serial: u64, random: u128) -> Result<Text, NoMemory>
    ensures { IfOk result (λ id. id ≡ session_id serial random) }
{
    let mut room = Uuid::encode_buffer();
    let word = Uuid::from_u128(random).hyphenated().encode_lower(&mut room);
    Ok(Text(format!(in alloc; "{serial}-{word}")?))
}
