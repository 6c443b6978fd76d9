//! Lists that grow by what is found, and the one that is found alone.
ghost use Rattle.std.specs.Prelude.{◌≡◌, ◌++◌, OnOk};
ghost use Rattle.ifmap_forms.specs.Gathering.{option_list};
ghost use Rattle.ifmap_forms.specs.Tables.{only_member};

use std::alloc::AllocError as NoMemory;

/// Puts what is found after the members, where there is something. The one error is want of memory.
pub fn keep_found<T: Drop>(members: &mut Vec<T>, found: Option<T>) -> Result<(), NoMemory>
    ensures { OnOk result (members.new.items ≡ members.old.items ++ option_list found) }
{
    if let Some(member) = found {
        members.push(member)?;
    }
    Ok(())
}

/// The one member, where it stands alone.
pub fn only_member<T: Drop>(mut members: Vec<T>) -> Option<T>
    ensures { result ≡ only_member members.items }
{
    if members.len() != 1 {
        return None;
    }
    members.pop()
}
