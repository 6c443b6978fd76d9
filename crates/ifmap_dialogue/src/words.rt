//! Random words of events.
ghost use Rattle.std.specs.Prelude.{◌≡◌};
ghost use Rattle.ifmap_dialogue.specs.Words.{after_random, random_word};

use rand_chacha::ChaCha20Rng;
use rand_core::utils::NextWord;

// The next four words of the stream as one, the lowest first.
pub(crate) fn draw_word(words: &mut ChaCha20Rng) -> u128
    ensures word { result ≡ random_word words.old }
    ensures after { words.new ≡ after_random words.old }
{
    let first = u128::from(words.next_word());
    let second = u128::from(words.next_word());
    let third = u128::from(words.next_word());
    let fourth = u128::from(words.next_word());
    first + (1 << 32) * second + (1 << 64) * third + (1 << 96) * fourth
}
