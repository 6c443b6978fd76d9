//! The token at the front of bytes.
ghost use Rattle.std.specs.Prelude.{◌≡◌, ◌≤◌, ℕ, List, drop, length, IfErr, IfOk, IfSome};
ghost use Rattle.ifmap_elem.specs.Tokens.{TakesToken};
ghost use Rattle.ifmap_elem.specs.declared.tokens.Token.{Token};
ghost use Rattle.ifmap_lexer.specs.There.{IsAlone, NoToken, TakesEndTag};

use crate::errors::LexError;
use crate::tokens::{after_end_tag, first_token};
use ifmap_elem::Text;
use ifmap_elem::tokens::Token;
use std::alloc::Global;

/// The token that stands at the front, and how many bytes it takes.
#[derive(Debug, Drop)]
pub struct Lexed {
    pub token: Token,
    pub length: usize,
}

/// The token at the front of the bytes.
pub fn token_of(alloc: Global, bytes: &[u8]) -> Result<Lexed, LexError>
    ensures taken { IfOk result (λ l. TakesToken bytes.now l.token (drop l.length bytes.now)) }
    ensures length { IfOk result (λ l. (1 ≤ l.length) × (l.length ≤ length bytes.now)) }
    ensures alone { IfOk result (λ l. IsAlone bytes.now l.token (drop l.length bytes.now)) }
    ensures malformed { IfErr result (λ e. e ≡ LexError.Malformed → NoToken bytes.now) }
{
    let (token, rest) = first_token(alloc, bytes)?;
    let length = bytes.len() - rest.len();
    Ok(Lexed { token, length })
}

/// How many bytes the end tag of the name with these parts takes, where it stands at the front; none
/// where it does not, or where the name is not of ASCII alone. Makes no token.
pub fn end_tag_length(prefix: &Text, local: &Text, bytes: &[u8]) -> Option<usize>
    ensures taken { IfSome result (λ n.
        TakesEndTag prefix.now local.now bytes.now (drop n bytes.now)) }
    ensures length { IfSome result (λ n. (1 ≤ n) × (n ≤ length bytes.now)) }
{
    let rest = after_end_tag(prefix.as_bytes(), local.as_bytes(), bytes)?;
    Some(bytes.len() - rest.len())
}
