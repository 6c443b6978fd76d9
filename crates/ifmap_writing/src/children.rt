//! What operations carry, as children: identifiers, and lists of metadata.
ghost use Rattle.std.specs.Prelude.{◌≡◌, ◌∷◌, [], map, IfOk};
ghost use Rattle.ifmap_elem.specs.Building.{as_children};
ghost use Rattle.ifmap_writing.specs.RequestElements.{identifier_children, item_children, list_element, published_children};

use ifmap_elem::{Child, Copied, Element, Many};
use ifmap_ident::{Identifier, Item};
use ifmap_meta::Metadata;
use std::alloc::{AllocError as NoMemory, Global};

// One identifier, alone.
pub(crate) fn start_children(alloc: Global, start: &Identifier) -> Result<Vec<Child>, NoMemory>
    ensures { IfOk result (λ children. children.items ≡ identifier_children (start.now ∷ [])) }
{
    let mut children = Vec::new(alloc);
    children.push(Child::Element(start.element(alloc)?))?;
    Ok(children)
}

// The identifiers of an item, the smaller first.
pub(crate) fn item_children(alloc: Global, item: &Item) -> Result<Vec<Child>, NoMemory>
    ensures { IfOk result (λ children. children.items ≡ item_children item.now) }
{
    match item {
        Item::One(a) => start_children(alloc, a),
        Item::Pair(a, b) => pair_children(alloc, a, b),
    }
}

fn pair_children(alloc: Global, a: &Identifier, b: &Identifier) -> Result<Vec<Child>, NoMemory>
    ensures { IfOk result (λ children.
        children.items ≡ identifier_children (a.now ∷ (b.now ∷ []))) }
{
    let mut children = Vec::new(alloc);
    children.push(Child::Element(a.element(alloc)?))?;
    children.push(Child::Element(b.element(alloc)?))?;
    Ok(children)
}

// The identifiers of an item, and then the list of metadata.
pub(crate) fn published_children(
    alloc: Global,
    item: &Item,
    elements: &Many<Metadata>,
) -> Result<Vec<Child>, NoMemory>
    ensures { IfOk result (λ children. children.items ≡ published_children item.now elements.now) }
{
    let mut children = item_children(alloc, item)?;
    children.push(Child::Element(list_element(alloc, elements.as_slice())?))?;
    Ok(children)
}

fn list_element(alloc: Global, elements: &[Metadata]) -> Result<Element, NoMemory>
    ensures { IfOk result (λ element. element ≡ list_element elements.now) }
{
    let children = metadata_children(alloc, elements)?;
    Element::with_local(alloc, "metadata", Vec::new(alloc), children)
}

fn metadata_children(alloc: Global, elements: &[Metadata]) -> Result<Vec<Child>, NoMemory>
    ensures { IfOk result (λ children.
        children.items ≡ as_children (map (λ metadata. metadata.element) elements.now)) }
{
    let mut children = Vec::with_capacity(alloc, elements.len())?;
    for metadata in elements {
        children.push(Child::Element(metadata.element.copy(alloc)?))?;
    }
    Ok(children)
}
