//! Elements of XML as values: texts, lists, names, attributes and children, with their copies; what
//! bytes spell an element, and the printer of its canonical bytes. `Text` and `Many` are the text and
//! the list of every public type of the crates above.
#![tactic(auto)]

pub mod building;
pub mod comparing;
pub mod copying;
pub mod elements;
pub mod equality;
mod escaping;
pub mod fronts;
mod keys;
pub mod laws;
pub mod lists;
mod numbering;
pub mod order_laws;
pub mod outline_attributes;
pub mod outlines;
mod outlining;
pub mod printing;
pub mod readings;
mod sorting;
pub mod texts;
pub mod tokens;
pub mod white_space;

pub use comparing::same;
pub use copying::Copied;
pub use elements::{Attribute, Child, Element, Name};
pub use equality::Equals;
pub use escaping::{TextPlace, text_reference, value_reference};
pub use lists::Many;
pub use numbering::XML_SPACE;
pub use outline_attributes::OutlineAttribute;
pub use outlines::{Label, Outline, Piece};
pub use printing::{canonical, canonical_outline, written};
pub use readings::{Declared, Reading};
pub use texts::Text;
