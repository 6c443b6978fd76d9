//! Rows of tokens: bytes, and the token at their front.
use crate::escapes::{bytes_of, text_of};
use ifmap_elem::Text;
use ifmap_elem::tokens::{Assignment, Qualified, Tag, Token};
use ifmap_lexer::{LexError, Lexed, token_of};
use std::alloc::{AllocError as NoMemory, Global};

/// The answer to bytes: how many of them the token at their front has, and the token.
pub fn answer_of(alloc: Global, asked: &str) -> Result<String, NoMemory> {
    let Some(bytes) = bytes_of(alloc, asked)? else {
        return String::from_str(alloc, "no bytes");
    };
    match token_of(alloc, bytes.as_slice()) {
        Ok(lexed) => text_of_lexed(alloc, &lexed),
        Err(LexError::Malformed) => String::from_str(alloc, "Malformed"),
        Err(LexError::NoMemory) => Err(NoMemory),
    }
}

fn text_of_lexed(alloc: Global, lexed: &Lexed) -> Result<String, NoMemory> {
    let mut out = format!(in alloc; "{} ", lexed.length)?;
    push_token(alloc, &lexed.token, &mut out)?;
    Ok(out)
}

fn push_token(alloc: Global, token: &Token, out: &mut String) -> Result<(), NoMemory> {
    match token {
        Token::Declaration => out.push_str("declaration"),
        Token::Comment => out.push_str("comment"),
        Token::Start(tag) => push_tag(alloc, "start ", tag, out),
        Token::Empty(tag) => push_tag(alloc, "empty ", tag, out),
        Token::End(name) => {
            out.push_str("end ")?;
            push_name(name, out)
        }
        Token::Section(text) => push_text(alloc, "section ", text, out),
        Token::Characters { blank, text } => {
            push_text(alloc, if *blank { "blank " } else { "text " }, text, out)
        }
    }
}

fn push_tag(alloc: Global, word: &str, tag: &Tag, out: &mut String) -> Result<(), NoMemory> {
    out.push_str(word)?;
    push_name(&tag.name, out)?;
    for assignment in tag.assignments.iter() {
        push_assignment(alloc, assignment, out)?;
    }
    Ok(())
}

fn push_assignment(alloc: Global, it: &Assignment, out: &mut String) -> Result<(), NoMemory> {
    out.push(' ')?;
    push_name(&it.name, out)?;
    push_text(alloc, "=", &it.value, out)
}

// The name with its prefix, if it has one.
fn push_name(name: &Qualified, out: &mut String) -> Result<(), NoMemory> {
    if !name.prefix.is_empty() {
        out.push_str(name.prefix.as_str())?;
        out.push(':')?;
    }
    out.push_str(name.local.as_str())
}

fn push_text(alloc: Global, word: &str, text: &Text, out: &mut String) -> Result<(), NoMemory> {
    let told = text_of(alloc, text.as_bytes())?;
    write!(out, "{word}\"{told}\"")
}
