//! Values in quotes.
ghost use Rattle.std.specs.Prelude.{◌≡◌, ℕ, List, ◌∷◌, ◌==◌, ◌||◌, true, IfNone, IfSome};
ghost use Rattle.ifmap_elem.specs.Tokens.{TakesQuoted};
ghost use Rattle.ifmap_lexer.specs.There.{BeginsNoQuoted, BeginsQuoted, NoQuoted, is_quote};

use crate::splitting::{split_round_byte, split_white};
use ifmap_elem::fronts::after_word;

// The value after an equals sign, as it is written between its quotes, and what is left.
pub(crate) fn quoted_value(bytes: &[u8]) -> Option<(&[u8], &[u8])>
    ensures found { IfSome result (λ f. TakesQuoted bytes.now f.0.now f.1.now) }
    ensures none { IfNone result (NoQuoted bytes.now) }
{
    let (_before, sign) = split_white(bytes);
    let Some(after) = after_word(b"=", sign) else {
        return None;
    };
    let (_after, value) = split_white(after);
    let Some((quote, inside)) = quote_at(value) else {
        return None;
    };
    split_round_byte(quote, inside)
}

// The quote at the front, single or double, and what is left.
fn quote_at(bytes: &[u8]) -> Option<(u8, &[u8])>
    ensures found { IfSome result (λ f. BeginsQuoted f.0 f.1.now bytes.now) }
    ensures none { IfNone result (BeginsNoQuoted bytes.now) }
{
    let Some((first, rest)) = bytes.split_first() else {
        return None;
    };
    if is_quote(*first) {
        Some((*first, rest))
    } else {
        None
    }
}

fn is_quote(byte: u8) -> bool
    ensures { result ≡ is_quote byte }
{
    byte == b'"' || byte == b'\''
}
