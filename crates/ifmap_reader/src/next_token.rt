//! The token at the front of bytes, and what it makes of where a reader stands.
ghost use Rattle.std.specs.Prelude.{◌≡◌, IfSome, reverse};
ghost use Rattle.ifmap_reader.specs.NextToken.{EndsInnermost, InnermostAnswer, NextAnswer};
ghost use Rattle.ifmap_reader.specs.OpenElements.{AreLinked};
ghost use Rattle.ifmap_reader.specs.Progress.{IsLinked, Within, where_is};

use crate::errors::TokenRefusal;
use crate::open_elements::OpenElement;
use crate::progress::{DocumentProgress, take_token, with_element};
use ifmap_elem::Many;
use ifmap_lexer::{LexError, end_tag_length, token_of};
use std::alloc::Global;

// Where a reader stands after a token, and how many bytes that takes.
#[derive(Drop)]
pub(crate) struct AfterToken {
    pub standing: DocumentProgress,
    pub length: usize,
}

// Where the reader stands after the token at the front of the bytes.
pub(crate) fn take_next(
    alloc: Global,
    depth: u32,
    standing: DocumentProgress,
    bytes: &[u8],
) -> Result<AfterToken, TokenRefusal>
    requires { IsLinked (where_is standing) }
    ensures { NextAnswer depth (where_is standing) bytes.now result }
{
    match standing {
        DocumentProgress::Open(open_elements) => take_next_inside(
            alloc,
            depth,
            open_elements,
            bytes,
        ),
        standing => take_made_token(alloc, depth, standing, bytes),
    }
}

// Within open elements most end tags are those of the innermost, of which no token is made.
fn take_next_inside(
    alloc: Global,
    depth: u32,
    open_elements: Many<OpenElement>,
    bytes: &[u8],
) -> Result<AfterToken, TokenRefusal>
    requires { AreLinked (reverse open_elements) }
    ensures { NextAnswer depth (Within (reverse open_elements)) bytes.now result }
{
    let Some(length) = innermost_end_length(open_elements.as_slice(), bytes) else {
        return take_made_token(alloc, depth, DocumentProgress::Open(open_elements), bytes);
    };
    let standing = end_innermost(alloc, open_elements)?;
    Ok(AfterToken { standing, length })
}

// How many bytes the end tag of the innermost takes, where it stands at the front and is of ASCII.
fn innermost_end_length(open_elements: &[OpenElement], bytes: &[u8]) -> Option<usize>
    ensures { IfSome result (λ n. EndsInnermost (reverse open_elements.now) bytes.now n) }
{
    let count = open_elements.len();
    if count == 0 {
        return None;
    }
    let innermost = &open_elements[count - 1];
    end_tag_length(&innermost.prefix, &innermost.name.local, bytes)
}

// After the end tag of the innermost.
fn end_innermost(
    alloc: Global,
    open_elements: Many<OpenElement>,
) -> Result<DocumentProgress, TokenRefusal>
    ensures { InnermostAnswer open_elements result }
{
    let Many(mut open_elements) = open_elements;
    let Some(innermost) = open_elements.pop() else {
        return Err(TokenRefusal::NotAllowed);
    };
    let (element, declared) = innermost.close(alloc)?;
    Ok(with_element(alloc, open_elements, element, declared)?)
}

// After a token that is made of its bytes.
fn take_made_token(
    alloc: Global,
    depth: u32,
    standing: DocumentProgress,
    bytes: &[u8],
) -> Result<AfterToken, TokenRefusal>
    requires { IsLinked (where_is standing) }
    ensures { NextAnswer depth (where_is standing) bytes.now result }
{
    let lexed = match token_of(alloc, bytes) {
        Ok(lexed) => lexed,
        Err(LexError::Malformed) => return Err(TokenRefusal::NotAllowed),
        Err(LexError::NoMemory) => return Err(TokenRefusal::NoMemory),
    };
    let standing = take_token(alloc, depth, standing, lexed.token)?;
    Ok(AfterToken {
        standing,
        length: lexed.length,
    })
}
