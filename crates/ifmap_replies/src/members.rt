//! One element alone.
ghost use Rattle.ifmap_forms.specs.Answers.{IsChecked};
ghost use Rattle.ifmap_forms.specs.Tables.{parts_in};
ghost use Rattle.ifmap_replies.specs.ResultForms.{only_check};

use ifmap_elem::Child;
use ifmap_forms::FormError;
use ifmap_forms::gathering::only_member;
use ifmap_forms::members::{MemberReader, read_members};
use ifmap_ident::Code;
use std::alloc::Global;

// What the one element means, beside which nothing but white space stands.
pub(crate) fn read_only_member<R: MemberReader>(
    alloc: Global,
    children: Vec<Child>,
) -> Result<R::Member, FormError>
    ensures { IsChecked (only_check R.finds (parts_in children.items)) result }
{
    let members = read_members::<R>(alloc, children)?;
    match only_member(members) {
        Some(member) => Ok(member),
        None => Err(FormError::Named(Code::Failure)),
    }
}
