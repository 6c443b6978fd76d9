//! The word of a key: a number that is the same for the same key, so that most keys are told apart by
//! one comparison.
ghost use Rattle.std.specs.Prelude.{◌≡◌};
ghost use Rattle.std.specs.List.{flat_map};
ghost use Rattle.ifmap_meta.specs.KeyWords.{attribute_parts, end_part, key_word, mix, mix_all, name_parts, parts_of, parts_of_child};
ghost use Rattle.ifmap_meta.specs.Stamps.{without_stamps};

use crate::metadata::is_single;
use crate::stored::is_stamp;
use ifmap_elem::{Attribute, Child, Element, Many, Name};

// The word of the element's key, where it is stored, but for its publisher.
#[tactic(auto, using(crate::specs::laws::KeyWordLaws::mix_append))]
pub(crate) fn key_word(element: &Element) -> u64
    ensures { result ≡ key_word element.now }
{
    let word = mix_name(0, &element.name);
    if is_single(element) {
        return word;
    }
    let word = mix_content(word, &element.attributes);
    mix_children(word, &element.children)
}

#[tactic(auto, using(crate::specs::laws::KeyWordLaws::mix_append))]
fn mix_name(word: u64, name: &Name) -> u64
    ensures { result ≡ mix_all word (name_parts name.now) }
{
    let word = mix_text(word, name.space.as_bytes());
    mix_text(word, name.local.as_bytes())
}

#[tactic(auto, using(crate::specs::laws::KeyWordLaws::mix_append))]
fn mix_attribute(word: u64, attribute: &Attribute) -> u64
    ensures { result ≡ mix_all word (attribute_parts attribute.now) }
{
    let word = mix_name(word, &attribute.name);
    mix_text(word, attribute.value.as_bytes())
}

// The attributes that are no stamps.
#[tactic(auto, using(crate::specs::laws::KeyWordLaws::mix_append))]
fn mix_content(word: u64, attributes: &Many<Attribute>) -> u64
    ensures { result
        ≡ mix_all word (flat_map attribute_parts (without_stamps attributes.now)) }
{
    let mut mixed = word;
    for attribute in attributes.as_slice() {
        if !is_stamp(attribute) {
            mixed = mix_attribute(mixed, attribute);
        }
    }
    mixed
}

#[tactic(auto, using(crate::specs::laws::KeyWordLaws::mix_append))]
fn mix_attributes(word: u64, attributes: &Many<Attribute>) -> u64
    ensures { result ≡ mix_all word (flat_map attribute_parts attributes.now) }
{
    let mut mixed = word;
    for attribute in attributes.as_slice() {
        mixed = mix_attribute(mixed, attribute);
    }
    mixed
}

#[cycle(mixing)]
#[tactic(auto, using(crate::specs::laws::KeyWordLaws::mix_append, crate::specs::laws::KeyWordLaws::parts_are))]
fn mix_element(word: u64, element: &Element) -> u64
    ensures { result ≡ mix_all word (parts_of element.now) }
{
    let word = mix_name(word, &element.name);
    let word = mix_attributes(word, &element.attributes);
    mix_children(word, &element.children)
}

#[cycle(mixing)]
#[tactic(auto, using(crate::specs::laws::KeyWordLaws::mix_append))]
fn mix_children(word: u64, children: &Many<Child>) -> u64
    ensures { result ≡ mix_all word (flat_map parts_of_child children.now) }
{
    let mut mixed = word;
    for child in children.as_slice() {
        mixed = mix_child(mixed, child);
    }
    mixed
}

#[cycle(mixing)]
fn mix_child(word: u64, child: &Child) -> u64
    ensures { result ≡ mix_all word (parts_of_child child.now) }
{
    match child {
        Child::Element(element) => mix_element(word, element),
        Child::Text(text) => mix_text(word, text.as_bytes()),
    }
}

// What stands after each text: the first number that is no byte.
const END_OF_TEXT: u64 = 256;

// Mixes in a text with its end.
#[tactic(auto, using(crate::specs::laws::KeyWordLaws::mix_append))]
pub(crate) fn mix_text(word: u64, text: &[u8]) -> u64
    ensures { result ≡ mix_all word (end_part text.now) }
{
    mix(mix_bytes(word, text), END_OF_TEXT)
}

#[tactic(auto, using(crate::specs::laws::KeyWordLaws::mix_append))]
fn mix_bytes(word: u64, bytes: &[u8]) -> u64
    ensures { result ≡ mix_all word bytes.now }
{
    let mut mixed = word;
    for byte in bytes {
        mixed = mix(mixed, *byte as u64);
    }
    mixed
}

const PRIME: u64 = 1_099_511_628_211;

fn mix(word: u64, part: u64) -> u64
    ensures { result ≡ mix word part }
{
    word.wrapping_mul(PRIME).wrapping_add(part)
}
