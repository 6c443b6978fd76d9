//! Tokens as they stand in the text: what is written is borrowed from it.

// A token. `token_of_raw` (specs/RawTokens.antt) says which.
#[derive(Clone, Copy)]
pub(crate) enum RawToken<'a> {
    Any,
    OpenBracket,
    CloseBracket,
    OpenParenthesis,
    CloseParenthesis,
    EqualsSign,
    At,
    // A name: its prefix, which is empty where there is none, and its local part.
    Name(&'a str, &'a str),
    Literal(&'a str),
}
