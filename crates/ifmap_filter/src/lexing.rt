//! The token at the front of a text.
ghost use Rattle.std.specs.Prelude.{◌≡◌, ◌∷◌, [], chars, IfNone, IfSome, None};
ghost use Rattle.std.specs.Option.{option_map};
ghost use Rattle.ifmap_elem.specs.Chars.{is_white};
ghost use Rattle.ifmap_elem.specs.Names.{is_name_character};
ghost use Rattle.ifmap_filter.specs.Lexing.{CutsCharacters};
ghost use Rattle.ifmap_filter.specs.RawTokens.{IsFrontToken, token_of_raw};
ghost use Rattle.ifmap_filter.specs.Tokens.{literal_at, name_at, prefixed_name_at, symbol_of, token_at, without_white};
ghost use Rattle.ifmap_prefixes.specs.ifmap_lexer.Cutting.{is_but};
ghost use Rattle.ifmap_prefixes.specs.ifmap_lexer.There.{is_quote};

use crate::raw_tokens::RawToken;
use ifmap_prefixes::{is_name_character, is_name_start};

// The token at the front, and what is left; none where no token stands there.
pub(crate) fn token_at(text: &str) -> Option<(RawToken<'_>, &str)>
    ensures found { IfSome result (λ f. IsFrontToken (token_at (chars text.now)) f.0 f.1.now) }
    ensures none { IfNone result (token_at (chars text.now) ≡ None) }
{
    let Some((first, rest)) = first_character(text) else {
        return None;
    };
    if is_quote(first) {
        return literal_at(first, rest);
    }
    if is_name_start(first) {
        return name_at(text);
    }
    match symbol_of(first) {
        Some(raw) => Some((raw, rest)),
        None => None,
    }
}

// The first character, and what is left.
fn first_character(text: &str) -> Option<(char, &str)>
    ensures found { IfSome result (λ f. chars text.now ≡ f.0 ∷ chars f.1.now) }
    ensures none { IfNone result (chars text.now ≡ []) }
{
    let mut characters = text.chars();
    match characters.next() {
        Some(first) => Some((first, characters.as_str())),
        None => None,
    }
}

fn is_quote(character: char) -> bool
    ensures { result ≡ is_quote character }
{
    character == '"' || character == '\''
}

// The token that is one character.
fn symbol_of<'a>(character: char) -> Option<RawToken<'a>>
    ensures { option_map token_of_raw result ≡ symbol_of character }
{
    if character == '*' {
        Some(RawToken::Any)
    } else if character == '[' {
        Some(RawToken::OpenBracket)
    } else if character == ']' {
        Some(RawToken::CloseBracket)
    } else if character == '(' {
        Some(RawToken::OpenParenthesis)
    } else if character == ')' {
        Some(RawToken::CloseParenthesis)
    } else if character == '=' {
        Some(RawToken::EqualsSign)
    } else if character == '@' {
        Some(RawToken::At)
    } else {
        None
    }
}

// What is left after white space at the front.
pub(crate) fn without_white(text: &str) -> &str
    ensures { chars result.now ≡ without_white (chars text.now) }
{
    let (_white, rest) = split_white(text);
    rest
}

// The white space at the front, and what is left.
fn split_white(text: &str) -> (&str, &str)
    ensures { CutsCharacters is_white text.now result.0.now result.1.now }
{
    match text.find(|c: char| !is_white(c)) {
        Some(place) => text.split_at(place),
        None => (text, ""),
    }
}

fn is_white(character: char) -> bool
    ensures { result ≡ is_white character }
{
    character == ' ' || character == '\t' || character == '\r' || character == '\n'
}

// The literal after its first quote, and what is left.
fn literal_at(quote: char, text: &str) -> Option<(RawToken<'_>, &str)>
    ensures found { IfSome result (λ f.
        IsFrontToken (literal_at quote (chars text.now)) f.0 f.1.now) }
    ensures none { IfNone result (literal_at quote (chars text.now) ≡ None) }
{
    let (own, closed) = split_literal(quote, text);
    match first_character(closed) {
        Some((_quote, rest)) => Some((RawToken::Literal(own), rest)),
        None => None,
    }
}

// The characters before the next such quote, and what is left from it on.
fn split_literal(quote: char, text: &str) -> (&str, &str)
    ensures { CutsCharacters (is_but quote) text.now result.0.now result.1.now }
{
    match text.find(quote) {
        Some(place) => text.split_at(place),
        None => (text, ""),
    }
}

// The name at the front, and what is left: a colon after its first part makes that a prefix.
fn name_at(text: &str) -> Option<(RawToken<'_>, &str)>
    ensures found { IfSome result (λ f. IsFrontToken (name_at (chars text.now)) f.0 f.1.now) }
    ensures none { IfNone result (name_at (chars text.now) ≡ None) }
{
    let (part, after) = split_name(text);
    match first_character(after) {
        Some((next, rest)) => {
            if next == ':' {
                prefixed_name_at(part, rest)
            } else {
                Some((RawToken::Name("", part), after))
            }
        }
        None => Some((RawToken::Name("", part), after)),
    }
}

// The name of this prefix, after its colon, and what is left.
fn prefixed_name_at<'a>(prefix: &'a str, text: &'a str) -> Option<(RawToken<'a>, &'a str)>
    ensures found { IfSome result (λ f.
        IsFrontToken (prefixed_name_at prefix.now (chars text.now)) f.0 f.1.now) }
    ensures none { IfNone result (prefixed_name_at prefix.now (chars text.now) ≡ None) }
{
    match first_character(text) {
        Some((first, _rest)) => {
            if is_name_start(first) {
                let (part, rest) = split_name(text);
                Some((RawToken::Name(prefix, part), rest))
            } else {
                None
            }
        }
        None => None,
    }
}

// The characters of names at the front, and what is left.
fn split_name(text: &str) -> (&str, &str)
    ensures { CutsCharacters is_name_character text.now result.0.now result.1.now }
{
    match text.find(|c: char| !is_name_character(c)) {
        Some(place) => text.split_at(place),
        None => (text, ""),
    }
}
