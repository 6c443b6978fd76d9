//! Elements as they are stored.
ghost use Rattle.std.specs.Prelude.{◌≡◌, length, IfOk};
ghost use Rattle.ifmap_elem.specs.Canonical.{canonical_bytes};
ghost use Rattle.ifmap_io.specs.Calendar.{moment_text};
ghost use Rattle.ifmap_meta.specs.Keys.{content_bytes};
ghost use Rattle.ifmap_meta.specs.Stamps.{content_of, is_stamp, with_stamps, without_stamps};
ghost use Rattle.ifmap_meta.specs.Stored.{stored_as};
ghost use Rattle.ifmap_meta.specs.Whole.{IsMetadata, IsWhole};

use crate::arranging::put_in_order;
use crate::clients::ClientName;
use crate::metadata::Metadata;
use crate::shared_elements::SharedElement;
use ifmap_elem::{Attribute, Copied, Element, Many, Text, canonical};
use ifmap_io::Moment;
use std::alloc::{AllocError as NoMemory, Global};

/// How long an element is stored.
#[derive(Clone, Copy, Debug, PartialEq, Eq)]
pub enum Life {
    /// Until the session with this serial ends.
    Session(u64),
    /// Until it is deleted.
    Forever,
}

impl Copied for Life {
    fn copy(&self, _alloc: Global) -> Result<Self, NoMemory> {
        Ok(*self)
    }
}

/// An element as it is stored, with its stamps.
#[derive(Debug, Drop)]
pub struct Stored {
    /// What is stored, with its stamps.
    pub element: SharedElement,
    /// The client that published it.
    pub publisher: ClientName,
    /// How long it is stored.
    pub life: Life,
}

impl Copied for Stored {
    fn copy(&self, alloc: Global) -> Result<Self, NoMemory> {
        Ok(Stored {
            element: self.element.copy(alloc)?,
            publisher: self.publisher.copy(alloc)?,
            life: self.life,
        })
    }
}

impl Stored {
    /// How many canonical bytes the stored element has. It takes no memory.
    pub fn size(&self) -> u64
        ensures { result ≡ length (canonical_bytes self.now.element) }
    {
        self.element.size()
    }
}

impl Metadata {
    /// What is stored of the element where this client publishes it at that moment: its content with
    /// the client and the moment as its stamps, whatever it says of these itself. The one error is
    /// want of memory.
    pub fn stamp(
        &self,
        alloc: Global,
        publisher: &ClientName,
        moment: Moment,
        life: Life,
    ) -> Result<Stored, NoMemory>
        ensures stored { IfOk result (λ s.
            s ≡ stored_as self.now.element publisher.now moment life) }
        ensures whole { IsMetadata self.now → IfOk result IsWhole }
    {
        let content = content(alloc, &self.element)?;
        let stamped = Element {
            name: content.name,
            attributes: with_stamps(alloc, publisher.text(), moment, content.attributes)?,
            children: content.children,
        };
        Ok(Stored {
            element: SharedElement::new(alloc, stamped)?,
            publisher: publisher.copy(alloc)?,
            life,
        })
    }
}

/// The element without its stamps. The one error is want of memory.
pub fn content(alloc: Global, element: &Element) -> Result<Element, NoMemory>
    ensures { IfOk result (λ e. e ≡ content_of element.now) }
{
    Ok(Element {
        name: element.name.copy(alloc)?,
        attributes: without_stamps(alloc, &element.attributes)?,
        children: element.children.copy(alloc)?,
    })
}

/// The canonical bytes of the element's content. The one error is want of memory.
#[tactic(auto, unfolding(crate::specs::Keys::content_bytes))]
pub fn content_bytes(alloc: Global, element: &Element) -> Result<Many<u8>, NoMemory>
    ensures { IfOk result (λ bytes. bytes ≡ content_bytes element.now) }
{
    canonical(alloc, &content(alloc, element)?)
}

pub(crate) fn is_stamp(attribute: &Attribute) -> bool
    ensures { result ≡ is_stamp attribute.now }
{
    attribute.name.is_bare("ifmap-publisher-id") || attribute.name.is_bare("ifmap-timestamp")
}

fn without_stamps(alloc: Global, attributes: &Many<Attribute>) -> Result<Many<Attribute>, NoMemory>
    ensures { IfOk result (λ made. made ≡ without_stamps attributes.now) }
{
    let mut made = Vec::with_capacity(alloc, attributes.len())?;
    for attribute in attributes.as_slice() {
        if !is_stamp(attribute) {
            made.push(attribute.copy(alloc)?)?;
        }
    }
    Ok(Many(made))
}

fn with_stamps(
    alloc: Global,
    publisher: &Text,
    moment: Moment,
    attributes: Many<Attribute>,
) -> Result<Many<Attribute>, NoMemory>
    ensures { IfOk result (λ made. made ≡ with_stamps publisher.now moment attributes) }
{
    let publisher = publisher.copy(alloc)?;
    let moment = moment_text(alloc, moment)?;
    let mut made = attributes.0;
    made.push(Attribute::with_local(alloc, "ifmap-publisher-id", publisher)?)?;
    made.push(Attribute::with_local(alloc, "ifmap-timestamp", moment)?)?;
    put_in_order(&mut made);
    Ok(Many(made))
}

fn moment_text(alloc: Global, moment: Moment) -> Result<Text, NoMemory>
    ensures { IfOk result (λ text. text ≡ moment_text moment) }
{
    let bytes = moment.text();
    let text = std::str::from_utf8(&bytes).unwrap();
    Text::from_str(alloc, text)
}
