//! Where a reader stands, and what one more token makes of it.
ghost use Rattle.std.specs.Prelude.{◌≡◌, ◌<◌, reverse, vec_len, IfOk, OnOk};
ghost use Rattle.ifmap_reader.specs.OpenElements.{AreLinked, ChangesLast, with_characters, with_inner};
ghost use Rattle.ifmap_reader.specs.Progress.{AfterRoot, EndAnswer, IsAfterElement, IsLinked, TextAnswer, TokenAnswer, Within, is_margin, where_is};
ghost use Rattle.ifmap_elem.specs.declared.tokens.Token.{Token};

use crate::allowed_tags::open_element;
use crate::declarations::ReversedDeclarations;
use crate::errors::TokenRefusal;
use crate::open_elements::OpenElement;
use ifmap_elem::tokens::{Qualified, Tag, Token};
use ifmap_elem::{Element, Many, Reading, Text};
use std::alloc::{AllocError as NoMemory, Global};

#[derive(Drop)]
pub(crate) enum DocumentProgress {
    // At the start, where a declaration may stand.
    Start,
    // Within the elements that are open, the innermost last; before the root where none is.
    Open(Many<OpenElement>),
    // After the root. What has been read lies elsewhere, so that a place is small to hand on.
    Done(Box<Reading>),
}

// Where the reader stands after one more token.
pub(crate) fn take_token(
    alloc: Global,
    depth: u32,
    standing: DocumentProgress,
    token: Token,
) -> Result<DocumentProgress, TokenRefusal>
    requires { IsLinked (where_is standing) }
    ensures { TokenAnswer depth (where_is standing) token result }
{
    match standing {
        DocumentProgress::Start => match token {
            Token::Declaration => Ok(DocumentProgress::Open(Many(Vec::new(alloc)))),
            token => take_inside(alloc, depth, Many(Vec::new(alloc)), token),
        },
        DocumentProgress::Open(open_elements) => take_inside(alloc, depth, open_elements, token),
        DocumentProgress::Done(reading) => take_after_root(depth, reading, token),
    }
}

fn take_after_root(
    depth: u32,
    reading: Box<Reading>,
    token: Token,
) -> Result<DocumentProgress, TokenRefusal>
    ensures { TokenAnswer depth (AfterRoot reading.value) token result }
{
    if !is_margin(&token) {
        return Err(TokenRefusal::NotAllowed);
    }
    Ok(DocumentProgress::Done(reading))
}

// Whether a token may stand beside the root.
fn is_margin(token: &Token) -> bool
    ensures { result ≡ is_margin token.now }
{
    matches!(
        token,
        Token::Comment | Token::Characters { blank: true, .. }
    )
}

fn take_inside(
    alloc: Global,
    depth: u32,
    open_elements: Many<OpenElement>,
    token: Token,
) -> Result<DocumentProgress, TokenRefusal>
    requires { AreLinked (reverse open_elements) }
    ensures { TokenAnswer depth (Within (reverse open_elements)) token result }
{
    match token {
        Token::Declaration => Err(TokenRefusal::NotAllowed),
        Token::Comment => Ok(DocumentProgress::Open(open_elements)),
        Token::Start(tag) => take_start(alloc, depth, open_elements, tag),
        Token::Empty(tag) => take_empty(alloc, depth, open_elements, tag),
        Token::End(name) => take_end(alloc, open_elements, name),
        Token::Section(text) => {
            let blank = false;
            take_text(open_elements, blank, text)
        }
        Token::Characters { blank, text } => take_text(open_elements, blank, text),
    }
}

// After a text. Outside the root it may be white space alone in its own bytes.
fn take_text(
    open_elements: Many<OpenElement>,
    blank: bool,
    text: Text,
) -> Result<DocumentProgress, TokenRefusal>
    ensures { TextAnswer open_elements blank text result }
{
    if open_elements.is_empty() {
        if blank {
            return Ok(DocumentProgress::Open(open_elements));
        }
        return Err(TokenRefusal::NotAllowed);
    }
    let Many(mut open_elements) = open_elements;
    add_words(&mut open_elements, text)?;
    Ok(DocumentProgress::Open(Many(open_elements)))
}

// Puts more text after the children of the innermost.
fn add_words(open_elements: &mut Vec<OpenElement>, text: Text) -> Result<(), NoMemory>
    requires { 0 < vec_len open_elements.old }
    ensures { OnOk result (ChangesLast (λ f. with_characters f text)
        open_elements.old.items open_elements.new.items) }
{
    let last = open_elements.len() - 1;
    open_elements[last].add_characters(text)?;
    Ok(())
}

#[inline(always)]
fn take_start(
    alloc: Global,
    depth: u32,
    open_elements: Many<OpenElement>,
    tag: Tag,
) -> Result<DocumentProgress, TokenRefusal>
    requires { AreLinked (reverse open_elements) }
    ensures { TokenAnswer depth (Within (reverse open_elements)) (Token.Start tag) result }
{
    let Many(mut open_elements) = open_elements;
    let inner = open_element(alloc, &open_elements, tag)?;
    if open_elements.len() >= depth as usize {
        return Err(TokenRefusal::TooDeep);
    }
    open_elements.push(inner)?;
    Ok(DocumentProgress::Open(Many(open_elements)))
}

#[inline(always)]
fn take_empty(
    alloc: Global,
    depth: u32,
    open_elements: Many<OpenElement>,
    tag: Tag,
) -> Result<DocumentProgress, TokenRefusal>
    requires { AreLinked (reverse open_elements) }
    ensures { TokenAnswer depth (Within (reverse open_elements)) (Token.Empty tag) result }
{
    let Many(open_elements) = open_elements;
    let inner = open_element(alloc, &open_elements, tag)?;
    if open_elements.len() >= depth as usize {
        return Err(TokenRefusal::TooDeep);
    }
    let (element, declared) = inner.close(alloc)?;
    Ok(with_element(alloc, open_elements, element, declared)?)
}

fn take_end(
    alloc: Global,
    open_elements: Many<OpenElement>,
    name: Qualified,
) -> Result<DocumentProgress, TokenRefusal>
    ensures { EndAnswer open_elements name result }
{
    let Many(mut open_elements) = open_elements;
    let Some(innermost) = open_elements.pop() else {
        return Err(TokenRefusal::NotAllowed);
    };
    if !innermost.is_named(&name) {
        return Err(TokenRefusal::NotAllowed);
    }
    let (element, declared) = innermost.close(alloc)?;
    Ok(with_element(alloc, open_elements, element, declared)?)
}

// After an element that ended: it is a child of the innermost that is still open, or the root.
#[inline(always)]
pub(crate) fn with_element(
    alloc: Global,
    open_elements: Vec<OpenElement>,
    element: Element,
    declared: ReversedDeclarations,
) -> Result<DocumentProgress, NoMemory>
    ensures { IfOk result (λ new. IsAfterElement open_elements.items element declared new) }
{
    let mut open_elements = open_elements;
    if open_elements.is_empty() {
        let root = element;
        let declared = declared.into_declared(alloc)?;
        return Ok(DocumentProgress::Done(Box::new(alloc, Reading { root, declared })?));
    }
    add_element(alloc, &mut open_elements, element, declared)?;
    Ok(DocumentProgress::Open(Many(open_elements)))
}

// Puts an element after the children of the innermost.
#[inline(always)]
fn add_element(
    alloc: Global,
    open_elements: &mut Vec<OpenElement>,
    element: Element,
    declared: ReversedDeclarations,
) -> Result<(), NoMemory>
    requires { 0 < vec_len open_elements.old }
    ensures { OnOk result (ChangesLast (λ f. with_inner f element declared)
        open_elements.old.items open_elements.new.items) }
{
    let last = open_elements.len() - 1;
    open_elements[last].add_inner(alloc, element, declared)?;
    Ok(())
}
