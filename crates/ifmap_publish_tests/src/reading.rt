//! What elements say.
use ifmap_elem::{Attribute, Child, Element};

/// Its text, where it begins with one, or nothing.
pub fn text_of(element: &Element) -> &str {
    match element.children.as_slice().first() {
        Some(Child::Text(text)) => text.as_str(),
        _ => "",
    }
}

/// What an attribute without a prefix says, or nothing.
pub fn value_of<'a>(attributes: &'a [Attribute], name: &str) -> &'a str {
    for attribute in attributes {
        if attribute.name.is_bare(name) {
            return attribute.value.as_str();
        }
    }
    ""
}
