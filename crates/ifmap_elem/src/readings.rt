//! What is read: an element, and where which prefixes are declared.
use crate::elements::Element;
use crate::lists::Many;
use crate::texts::Text;

/// A declaration of a prefix (Namespaces in XML 1.0, section 3). The default has the empty prefix,
/// and a default that is taken away has the empty namespace.
#[derive(Debug, Drop)]
pub struct Declared {
    /// Where the element stands that carries it: the indexes of children from the root on.
    pub path: Many<u32>,
    pub prefix: Text,
    pub space: Text,
}

/// An element that was read, and the declarations of prefixes in the order of the document.
#[derive(Debug, Drop)]
pub struct Reading {
    pub root: Element,
    pub declared: Many<Declared>,
}
