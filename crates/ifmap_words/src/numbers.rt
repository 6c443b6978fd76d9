//! Numbers as words.
ghost use Rattle.std.specs.Prelude.{◌≡◌, ◌≢◌, ◌<◌, ◌^◌, ℕ};
ghost use Rattle.std.specs.Fmt.{decimal};
ghost use Rattle.std.specs.Option.{MatchOption};

use itoa::Buffer;

/// The number below 2^64 that a text writes in decimal, without a sign or a leading zero, `0` alone
/// excepted; `None` exactly where it writes none. It takes no memory.
pub fn decimal_number(text: &str) -> Option<u64>
    ensures { MatchOption result
        ((n : ℕ) → n < 2 ^ 64 → text.now ≢ decimal n)
        (λ n. (n < 2 ^ 64) × (text.now ≡ decimal n)) }
{
    let Ok(number) = text.parse::<u64>() else {
        return None;
    };
    if Buffer::new().format(number) == text {
        Some(number)
    } else {
        None
    }
}
