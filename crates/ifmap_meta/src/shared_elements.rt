//! Elements that are shared, with their canonical bytes.
ghost use Rattle.std.specs.Prelude.{◌≡◌, length, IfOk};
ghost use Rattle.ifmap_elem.specs.Canonical.{canonical_bytes};
ghost use Rattle.ifmap_meta.specs.KeyWords.{key_word};

use crate::key_words::key_word;
use ifmap_elem::{Copied, Element, Many, canonical};
use std::alloc::{AllocError as NoMemory, Global};
use std::marker::Model;
use std::sync::Arc;

// An element with what is asked of it often, computed once.
#[derive(Debug, Drop)]
struct Printed {
    element: Element,
    bytes: Many<u8>,
    // The word of its key, where it is stored, but for its publisher.
    word: u64,
    ghost printed: { bytes ≡ canonical_bytes element },
    ghost worded: { word ≡ key_word element },
}

/// An element that is never changed and may stand in many places at once, with its canonical bytes.
/// Contracts see the element.
#[derive(Debug, Drop)]
pub struct SharedElement(Arc<Printed>);

impl Model for SharedElement {
    ghost use Rattle.std.specs.Arc.{arc_value};
    ghost use Rattle.ifmap_elem.specs.contracts.elements.Element as the_element;
    ghost use Rattle.ifmap_elem.specs.declared.elements.Element.{Element};

    ghost Value = { Element };

    ghost coded = { the_element.the_row.coded };

    ghost view = { λ shared. (arc_value shared.0).element };
}

impl SharedElement {
    /// The element, printed once. The one error is want of memory.
    pub fn new(alloc: Global, element: Element) -> Result<SharedElement, NoMemory>
        ensures { IfOk result (λ shared. shared ≡ element) }
    {
        let bytes = bytes_of(alloc, &element)?;
        let word = key_word(&element);
        let printed = Printed {
            element,
            bytes,
            word,
        };
        Ok(SharedElement(Arc::new(alloc, printed)?))
    }

    /// The same element once more: nothing is copied. It may fail.
    pub fn share(&self) -> Result<SharedElement, NoMemory>
        ensures { IfOk result (λ shared. shared ≡ self.now) }
    {
        Ok(SharedElement(Arc::try_clone(&self.0)?))
    }

    /// The element.
    pub fn element(&self) -> &Element
        ensures { result.now ≡ self.now }
    {
        &self.0.element
    }

    /// Its canonical bytes. It takes no memory.
    pub fn bytes(&self) -> &[u8]
        ensures { result.now ≡ canonical_bytes self.now }
    {
        self.0.bytes.as_slice()
    }

    // The word of its key, where it is stored, but for its publisher. It takes no memory.
    pub(crate) fn word(&self) -> u64
        ensures { result ≡ key_word self.now }
    {
        self.0.word
    }

    /// How many canonical bytes it has. It takes no memory.
    pub fn size(&self) -> u64
        ensures { result ≡ length (canonical_bytes self.now) }
    {
        self.0.bytes.len() as u64
    }
}

impl Copied for SharedElement {
    fn copy(&self, _alloc: Global) -> Result<Self, NoMemory> {
        self.share()
    }
}

// The canonical bytes, in a vector that has no room for more.
fn bytes_of(alloc: Global, element: &Element) -> Result<Many<u8>, NoMemory>
    ensures { IfOk result (λ bytes. bytes ≡ canonical_bytes element.now) }
{
    let mut bytes = canonical(alloc, element)?.0;
    bytes.shrink_to_fit();
    Ok(Many(bytes))
}
