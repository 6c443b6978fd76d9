//! Each kind of token by itself.
ghost use Rattle.std.specs.Prelude.{◌≡◌, List, ℕ, IfErr, IfOk, IfSome};
ghost use Rattle.ifmap_elem.specs.Tokens.{TakesToken};
ghost use Rattle.ifmap_elem.specs.declared.tokens.Token.{Token};
ghost use Rattle.ifmap_lexer.specs.There.{SomeToken, end_token};
ghost use Rattle.ifmap_elem.specs.Kinds.{Stands};
ghost use Rattle.ifmap_lexer.specs.Refusing.{Refuses};

use crate::characters::characters;
use crate::declaration::after_declaration;
use crate::errors::LexError;
use crate::kinds::kind_at;
use crate::names::{after_ascii_name, name_of};
use crate::splitting::{has_section_end, split_byte, split_white, split_word};
use crate::tags::tag_of;
use crate::values::{meaning, plain_meaning};
use ifmap_elem::TextPlace;
use ifmap_elem::fronts::after_word;
use ifmap_elem::tokens::{Token, TokenKind};
use ifmap_elem::white_space::is_white_alone;
use std::alloc::Global;

// The token at the front, and what is left.
pub(crate) fn first_token(alloc: Global, bytes: &[u8]) -> Result<(Token, &[u8]), LexError>
    ensures found { IfOk result (λ f. TakesToken bytes.now f.0 f.1.now) }
    ensures refused { IfErr result (λ e. Refuses e (SomeToken bytes.now)) }
{
    match kind_at(bytes) {
        TokenKind::Nothing => Err(LexError::Malformed),
        TokenKind::Text => text(alloc, bytes),
        TokenKind::Declaration => declaration(bytes),
        TokenKind::End => end_tag(alloc, bytes),
        TokenKind::Tag => tag(alloc, bytes),
        TokenKind::Comment => comment(bytes),
        TokenKind::Section => section(alloc, bytes),
    }
}

fn declaration(bytes: &[u8]) -> Result<(Token, &[u8]), LexError>
    ensures found { IfOk result (λ f. TakesToken bytes.now f.0 f.1.now) }
    ensures refused { IfErr result (λ e. Refuses e (Stands TokenKind.Declaration bytes.now)) }
{
    match after_declaration(bytes) {
        Some(rest) => Ok((Token::Declaration, rest)),
        None => Err(LexError::Malformed),
    }
}

fn comment(bytes: &[u8]) -> Result<(Token, &[u8]), LexError>
    ensures found { IfOk result (λ f. TakesToken bytes.now f.0 f.1.now) }
    ensures refused { IfErr result (λ e. Refuses e (Stands TokenKind.Comment bytes.now)) }
{
    let Some(inner) = after_word(b"<!--", bytes) else {
        return Err(LexError::Malformed);
    };
    let Some((content, end)) = split_word(b"--", inner) else {
        return Err(LexError::Malformed);
    };
    let Some(rest) = after_word(b">", end) else {
        return Err(LexError::Malformed);
    };
    match characters(content) {
        Some(_) => Ok((Token::Comment, rest)),
        None => Err(LexError::Malformed),
    }
}

fn section(alloc: Global, bytes: &[u8]) -> Result<(Token, &[u8]), LexError>
    ensures found { IfOk result (λ f. TakesToken bytes.now f.0 f.1.now) }
    ensures refused { IfErr result (λ e. Refuses e (Stands TokenKind.Section bytes.now)) }
{
    let Some(inner) = after_word(b"<![CDATA[", bytes) else {
        return Err(LexError::Malformed);
    };
    let Some((content, rest)) = split_word(b"]]>", inner) else {
        return Err(LexError::Malformed);
    };
    let Some(written) = characters(content) else {
        return Err(LexError::Malformed);
    };
    Ok((Token::Section(plain_meaning(alloc, written)?), rest))
}

fn end_tag(alloc: Global, bytes: &[u8]) -> Result<(Token, &[u8]), LexError>
    ensures found { IfOk result (λ f. TakesToken bytes.now f.0 f.1.now) }
    ensures refused { IfErr result (λ e. Refuses e (Stands TokenKind.End bytes.now)) }
{
    let Some(inner) = after_word(b"</", bytes) else {
        return Err(LexError::Malformed);
    };
    let (name, after) = name_of(alloc, inner)?;
    let (_white, end) = split_white(after);
    match after_word(b">", end) {
        Some(rest) => Ok((Token::End(name), rest)),
        None => Err(LexError::Malformed),
    }
}

// What is after the end tag of the name with these parts, where it stands at the front and the name is
// of ASCII alone.
pub(crate) fn after_end_tag<'a>(prefix: &[u8], local: &[u8], bytes: &'a [u8]) -> Option<&'a [u8]>
    ensures { IfSome result (λ rest.
        TakesToken bytes.now (end_token prefix.now local.now) rest.now) }
{
    let inner = after_word(b"</", bytes)?;
    let after = after_ascii_name(prefix, local, inner)?;
    let (_white, end) = split_white(after);
    after_word(b">", end)
}

fn tag(alloc: Global, bytes: &[u8]) -> Result<(Token, &[u8]), LexError>
    ensures found { IfOk result (λ f. TakesToken bytes.now f.0 f.1.now) }
    ensures refused { IfErr result (λ e. Refuses e (Stands TokenKind.Tag bytes.now)) }
{
    let (tag, end) = tag_of(alloc, bytes)?;
    if let Some(rest) = after_word(b">", end) {
        return Ok((Token::Start(tag), rest));
    }
    match after_word(b"/>", end) {
        Some(rest) => Ok((Token::Empty(tag), rest)),
        None => Err(LexError::Malformed),
    }
}

fn text(alloc: Global, bytes: &[u8]) -> Result<(Token, &[u8]), LexError>
    ensures found { IfOk result (λ f. TakesToken bytes.now f.0 f.1.now) }
    ensures refused { IfErr result (λ e. Refuses e (Stands TokenKind.Text bytes.now)) }
{
    let (own, rest) = split_byte(b'<', bytes);
    if own.is_empty() {
        return Err(LexError::Malformed);
    }
    if has_section_end(own) {
        return Err(LexError::Malformed);
    }
    let Some(written) = characters(own) else {
        return Err(LexError::Malformed);
    };
    let meant = meaning(alloc, TextPlace::Content, written)?;
    Ok((
        Token::Characters {
            blank: is_white_alone(own),
            text: meant,
        },
        rest,
    ))
}
