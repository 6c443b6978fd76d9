//! Attributes in order at every level, in place.
ghost use Rattle.std.specs.Prelude.{◌≡◌, not, map};
ghost use Rattle.std.specs.List.{filter};
ghost use Rattle.ifmap_elem.specs.Arranged.{arrange, arrange_child, sort_attributes};
ghost use Rattle.ifmap_meta.specs.Stamps.{content_of, without_stamps};

use crate::stored::is_stamp;
use ifmap_elem::{Attribute, Child, Element, Many};

// The element's content, with the attributes of all elements in it in order.
pub(crate) fn arrange_content(mut element: Element) -> Element
    ensures { result ≡ arrange (content_of element) }
{
    drop_stamps(&mut element.attributes.0);
    arrange(&mut element);
    element
}

fn drop_stamps(attributes: &mut Vec<Attribute>)
    ensures { attributes.new.items ≡ without_stamps attributes.old.items }
{
    attributes.retain(|attribute| !is_stamp(attribute));
}

/// Puts the attributes of the element and of all elements in it in order, by name and then by
/// value. It takes no memory.
#[cycle(arranging)]
pub fn arrange(element: &mut Element)
    ensures { element.new ≡ arrange element.old }
{
    put_in_order(&mut element.attributes.0);
    let children = &mut element.children;
    arrange_children(children);
}

#[cycle(arranging)]
fn arrange_children(children: &mut Many<Child>)
    ensures { children.new ≡ map arrange_child children.old }
{
    for i in 0..children.0.len() {
        arrange_child(&mut children.0[i]);
    }
}

#[cycle(arranging)]
fn arrange_child(child: &mut Child)
    ensures { child.new ≡ arrange_child child.old }
{
    match child {
        Child::Element(element) => arrange(element),
        Child::Text(_) => {}
    }
}

// Puts attributes in order, by name and then by value.
pub(crate) fn put_in_order(attributes: &mut Vec<Attribute>)
    ensures { attributes.new.items ≡ sort_attributes attributes.old.items }
{
    attributes.sort_unstable();
}
