//! Where an element stands.
ghost use Rattle.std.specs.Prelude.{◌≡◌, ◌≤◌, ◌^◌, ◌++◌, IfErr, IfOk, IsErr};
ghost use Rattle.ifmap_forms.specs.Scopes.{child_path, place_scope};
ghost use Rattle.ifmap_filter.specs.ifmap_prefixes.InScope.{scope_by};

use crate::errors::FormError;
use crate::gathering::keep_found;
use ifmap_filter::Declarations;
use std::alloc::{AllocError as NoMemory, Global};

/// Where an element of a message stands in the document: the element with this path, or a child of
/// that one.
#[derive(Clone, Copy)]
pub struct MessagePlace<'d, 'p> {
    /// The declarations of prefixes in the document, in its order.
    pub declared: &'p Declarations<'d>,
    /// The indexes of children from the root on.
    pub path: &'p [u32],
    /// The index of the child, where it is one.
    pub child: Option<u32>,
}

impl<'d, 'p> MessagePlace<'d, 'p> {
    /// The place of the child with that index of the element at the path. The one error is want of
    /// memory, which is answered where no path can have the index, since it is 2^32 or more.
    pub fn of_child(&self, index: usize) -> Result<MessagePlace<'d, 'p>, FormError>
        ensures declared { IfOk result (λ place. place.declared.now ≡ self.now.declared.now) }
        ensures path { IfOk result (λ place. place.path.now ≡ self.now.path.now) }
        ensures child { IfOk result (λ place. place.child ≡ Some index) }
        ensures refused { IfErr result (λ error. error ≡ FormError.NoMemory) }
        ensures far { IsErr result → 2 ^ 32 ≤ index }
    {
        let index = narrow(index)?;
        Ok(MessagePlace {
            declared: self.declared,
            path: self.path,
            child: Some(index),
        })
    }
}

/// The index of a child as paths have it. The one error is want of memory, which is answered where
/// no path can have it, since it is 2^32 or more.
pub fn narrow(index: usize) -> Result<u32, FormError>
    ensures same { IfOk result (λ n. n ≡ index) }
    ensures refused { IfErr result (λ error. error ≡ FormError.NoMemory) }
    ensures far { IsErr result → 2 ^ 32 ≤ index }
{
    match u32::try_from(index) {
        Ok(index) => Ok(index),
        Err(_) => Err(FormError::NoMemory),
    }
}

// The path of the element at a place, at which its prefixes are in scope.
pub(crate) fn full_path(alloc: Global, place: &MessagePlace<'_, '_>) -> Result<Vec<u32>, NoMemory>
    ensures path { IfOk result (λ path.
        path.items ≡ place.now.path.now ++ child_path place.now.child) }
    ensures scope { IfOk result (λ path. scope_by place.now.declared.now path.items ≡
        place_scope place.now.declared.now place.now.path.now place.now.child) }
{
    let mut path = Vec::with_capacity(alloc, place.path.len())?;
    path.extend_from_slice(place.path)?;
    keep_found(&mut path, place.child)?;
    Ok(path)
}
