//! Whether the attributes of an element have different names.
ghost use Rattle.std.specs.Prelude.{◌≡◌, ◌↔◌, IfOk, IsTrue, map, false};
ghost use Rattle.ifmap_elem.specs.Scopes.{AllDiffer};
ghost use Rattle.ifmap_reader.specs.AllowedTags.{LacksName};

use ifmap_elem::{Attribute, Equals, Name};
use std::alloc::{AllocError as NoMemory, Global};
use std::collections::BTreeSet;

// So many attributes are compared each to each, which takes no memory.
const FEW: usize = 8;

#[inline(always)]
pub(crate) fn have_other_names(alloc: Global, attributes: &[Attribute]) -> Result<bool, NoMemory>
    ensures { IfOk result (λ differ. IsTrue differ ↔ AllDiffer (map (λ t. t.name) attributes.now)) }
{
    if attributes.len() <= FEW {
        return Ok(few_differ(attributes));
    }
    many_differ(alloc, attributes)
}

fn many_differ(alloc: Global, attributes: &[Attribute]) -> Result<bool, NoMemory>
    ensures { IfOk result (λ differ. IsTrue differ ↔ AllDiffer (map (λ t. t.name) attributes.now)) }
{
    let mut names = BTreeSet::new(alloc);
    for attribute in attributes {
        if !names.insert(&attribute.name)? {
            return Ok(false);
        }
    }
    Ok(true)
}

fn few_differ(attributes: &[Attribute]) -> bool
    ensures { IsTrue result ↔ AllDiffer (map (λ t. t.name) attributes.now) }
{
    for i in 0..attributes.len() {
        if has_name(&attributes[i + 1..], &attributes[i].name) {
            return false;
        }
    }
    true
}

fn has_name(attributes: &[Attribute], name: &Name) -> bool
    ensures found { IsTrue result → LacksName name.now attributes.now → ⊥ }
    ensures none { result ≡ false → LacksName name.now attributes.now }
{
    for attribute in attributes {
        if attribute.name.equals(name) {
            return true;
        }
    }
    false
}
