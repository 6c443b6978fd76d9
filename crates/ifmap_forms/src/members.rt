//! Elements of one form, one after another.
ghost use Rattle.std.specs.Prelude.{Result};
ghost use Rattle.ifmap_elem.specs.declared.elements.Child.{out-Child};
ghost use Rattle.ifmap_elem.specs.declared.elements.Element.{Element};
ghost use Rattle.ifmap_ident.specs.declared.codes.Code.{Code};
ghost use Rattle.ifmap_forms.specs.Answers.{IsChecked, IsCheckedAs};
ghost use Rattle.ifmap_forms.specs.Gathering.{part_check};
ghost use Rattle.ifmap_forms.specs.Tables.{members_check, parts_in};

use crate::errors::FormError;
use crate::gathering::keep_found;
use crate::parts::pass_over_text;
use ifmap_elem::{Child, Element};
use ifmap_ident::Code;
use std::alloc::Global;

/// A reader of each of some elements.
pub trait MemberReader {
    /// What it reads.
    type Member: Drop;

    /// What an element means, or that it has a defect.
    ghost finds: { Element → Result Self.Member Code → Type 0 };

    /// What the element means; a defect is told by a code.
    fn read_member(alloc: Global, element: Element) -> Result<Self::Member, FormError>
        ensures { IsChecked (finds element) result };
}

/// What each of the elements among children means; nothing but white space may stand between them.
/// Each child is checked whole before the next: an element has the code of its first defect, and a
/// text that is not white space is Failure.
pub fn read_members<R: MemberReader>(
    alloc: Global,
    children: Vec<Child>,
) -> Result<Vec<R::Member>, FormError>
    ensures { IsCheckedAs (λ made. made.items) (members_check R.finds (parts_in children.items))
        result }
{
    let mut made = Vec::new(alloc);
    for child in children {
        let found = read_child::<R>(alloc, child)?;
        keep_found(&mut made, found)?;
    }
    Ok(made)
}

fn read_child<R: MemberReader>(alloc: Global, child: Child) -> Result<Option<R::Member>, FormError>
    ensures { IsChecked (part_check R.finds (out-Child child)) result }
{
    match child {
        Child::Element(element) => Ok(Some(R::read_member(alloc, element)?)),
        Child::Text(text) => pass_over_text(&text),
    }
}
