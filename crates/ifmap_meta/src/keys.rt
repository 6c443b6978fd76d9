//! Which stored elements have one key.
ghost use Rattle.std.specs.Prelude.{◌≡◌, ◌≢◌, ◌↔◌, ◌∷◌, IsTrue, List, MatchOption};
ghost use Rattle.std.specs.List.{list_all};
ghost use Rattle.ifmap_elem.specs.declared.elements.Attribute.{Attribute};
ghost use Rattle.ifmap_meta.specs.Keys.{HaveOneKey, same_key, same_type, word_of};
ghost use Rattle.ifmap_meta.specs.Stamps.{content_of, is_stamp, without_stamps};
ghost use Rattle.ifmap_meta.specs.Whole.{IsWhole};

use crate::key_words::mix_text;
use crate::metadata::is_single;
use crate::stored::{Stored, is_stamp};
use ifmap_elem::{Attribute, Element, Equals};

impl Stored {
    /// Whether both have one key, where they stand on one item: they are of one type, and where an
    /// item can carry many of it, of one publisher and content. It takes no memory and prints
    /// nothing.
    pub fn same_key(&self, other: &Stored) -> bool
        ensures parts { IsTrue result ↔ HaveOneKey self.now other.now }
        ensures keys { IsWhole self.now → IsWhole other.now →
            result ≡ same_key self.now other.now }
    {
        have_one_key(self, other)
    }

    /// A number that is the same for the same key. It takes no memory.
    #[tactic(auto, unfolding(crate::specs::Keys::word_of))]
    pub fn key_word(&self) -> u64
        ensures { result ≡ word_of self.now }
    {
        let word = self.element.word();
        if is_single(self.element.element()) {
            return word;
        }
        mix_text(word, self.publisher.text().as_bytes())
    }
}

fn have_one_key(one: &Stored, other: &Stored) -> bool
    ensures { IsTrue result ↔ HaveOneKey one.now other.now }
{
    if one.element.word() != other.element.word() {
        return false;
    }
    let (a, b) = (one.element.element(), other.element.element());
    same_type(a, b)
        && (is_single(a) || (one.publisher.equals(&other.publisher) && same_content(a, b)))
}

/// Whether both have one name and one cardinality. It takes no memory.
pub fn same_type(a: &Element, b: &Element) -> bool
    ensures { result ≡ same_type a.now b.now }
{
    a.name == b.name && is_single(a) == is_single(b)
}

// Whether both are the same but for their stamps.
fn same_content(one: &Element, other: &Element) -> bool
    ensures { IsTrue result ↔ (content_of one.now ≡ content_of other.now) }
{
    one.name.equals(&other.name)
        && same_content_attributes(one.attributes.as_slice(), other.attributes.as_slice())
        && one.children.equals(&other.children)
}

// Whether both have the same attributes in the same order, passing over the stamps.
fn same_content_attributes(one: &[Attribute], other: &[Attribute]) -> bool
    ensures { IsTrue result ↔ (without_stamps one.now ≡ without_stamps other.now) }
{
    let mut rest = other;
    for attribute in one {
        if !is_stamp(attribute) {
            match after_content(rest, attribute) {
                Some(after) => rest = after,
                None => return false,
            }
        }
    }
    are_stamps(rest)
}

// What follows this attribute, where it is the first of the content.
fn after_content<'a>(attributes: &'a [Attribute], attribute: &Attribute) -> Option<&'a [Attribute]>
    ensures { MatchOption result
        ((rest : List Attribute) → without_stamps attributes.now ≢ attribute.now ∷ rest)
        (λ after. without_stamps attributes.now ≡ attribute.now ∷ without_stamps after.now) }
{
    let mut rest = attributes;
    while let Some((first, after)) = rest.split_first() {
        if is_stamp(first) {
            rest = after;
        } else if first.equals(attribute) {
            return Some(after);
        } else {
            return None;
        }
    }
    None
}

// Whether no attribute is of the content.
fn are_stamps(attributes: &[Attribute]) -> bool
    ensures { result ≡ list_all is_stamp attributes.now }
{
    attributes.iter().all(is_stamp)
}
