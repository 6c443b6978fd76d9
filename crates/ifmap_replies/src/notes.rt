//! The notes of errors, read from `errorString`s.
ghost use Rattle.std.specs.Prelude.{◌≡◌, ◌++◌, IfOk, OnOk};
ghost use Rattle.std.specs.List.{list_all};
ghost use Rattle.ifmap_elem.specs.declared.elements.Child.{out-Child};
ghost use Rattle.ifmap_forms.specs.ifmap_filter.Holding.{own_text, text_among};
ghost use Rattle.ifmap_forms.specs.Answers.{IsChecked};
ghost use Rattle.ifmap_forms.specs.Tables.{parts_in};
ghost use Rattle.ifmap_replies.specs.ResultForms.{is_text, note_check, only_check};

use crate::members::read_only_member;
use ifmap_elem::{Child, Element, Text};
use ifmap_forms::FormError;
use ifmap_forms::members::MemberReader;
use ifmap_forms::parts::has_only;
use ifmap_ident::Code;
use std::alloc::{AllocError as NoMemory, Global};

// The note of an error, which stands alone among children.
pub(crate) fn read_note(alloc: Global, children: Vec<Child>) -> Result<Text, FormError>
    ensures { IsChecked (only_check note_check (parts_in children.items)) result }
{
    read_only_member::<NoteReader>(alloc, children)
}

// The text of an `errorString`.
struct NoteReader;

impl MemberReader for NoteReader {
    ghost use Rattle.ifmap_replies.specs.ResultForms.{note_check};

    type Member = Text;

    ghost finds = { note_check };

    fn read_member(alloc: Global, element: Element) -> Result<Text, FormError> {
        read_string(alloc, &element)
    }
}

fn read_string(alloc: Global, element: &Element) -> Result<Text, FormError>
    ensures { IsChecked (note_check element.now) result }
{
    if !element.name.is_bare("errorString") {
        return Err(FormError::Named(Code::Failure));
    }
    if !has_only(element, &[]) {
        return Err(FormError::Named(Code::Failure));
    }
    let children = element.children.as_slice();
    if !are_texts(children) {
        return Err(FormError::Named(Code::Failure));
    }
    Ok(text_among(alloc, children)?)
}

fn are_texts(children: &[Child]) -> bool
    ensures { result ≡ list_all is_text (parts_in children.now) }
{
    all_texts(children)
}

fn all_texts(children: &[Child]) -> bool
    ensures { result ≡ list_all (λ child. is_text (out-Child child)) children.now }
{
    children.iter().all(is_text)
}

fn is_text(child: &Child) -> bool
    ensures { result ≡ is_text (out-Child child.now) }
{
    match child {
        Child::Element(_) => false,
        Child::Text(_) => true,
    }
}

// The texts among children, joined.
fn text_among(alloc: Global, children: &[Child]) -> Result<Text, NoMemory>
    ensures { IfOk result (λ text. text ≡ text_among children.now) }
{
    let mut text = Text::new(alloc);
    for child in children {
        push_own_text(child, &mut text)?;
    }
    Ok(text)
}

fn push_own_text(child: &Child, text: &mut Text) -> Result<(), NoMemory>
    ensures { OnOk result (text.new ≡ text.old ++ own_text child.now) }
{
    match child {
        Child::Element(_) => Ok(()),
        Child::Text(own) => text.push_str(own.as_str()),
    }
}
