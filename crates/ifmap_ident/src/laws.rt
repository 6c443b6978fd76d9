//! Laws on identifiers and elements: functions that do nothing, whose contracts are the laws.
ghost use Rattle.std.specs.Prelude.{◌≡◌, ◌≤◌, ℕ, List, [], Result};
ghost use Rattle.ifmap_addresses.specs.Values.{AreBelow};
ghost use Rattle.ifmap_elem.specs.Arranged.{arrange};
ghost use Rattle.ifmap_elem.specs.Fit.{IsFit};
ghost use Rattle.ifmap_elem.specs.Nesting.{nesting};
ghost use Rattle.ifmap_elem.specs.declared.elements.Element.{Element};
ghost use Rattle.ifmap_ident.specs.Canon.{IsAnswer, IsCanon, IsIdentifier};
ghost use Rattle.ifmap_ident.specs.Identifiers.{identifier_bytes, identifier_element};
ghost use Rattle.ifmap_ident.specs.declared.errors.IdentError.{IdentError};
ghost use Rattle.ifmap_ident.specs.declared.identifiers.Identifier.{Identifier};
ghost use Rattle.ifmap_ident.specs.declared.identifiers.Identifier.TheVariants.{MacAddress};
ghost use Rattle.ifmap_ident.specs.Laws.{AreOneAnswer, HasAnswer};

use ifmap_addresses::laws::{addresses_have_one_size, texts_are_addresses_or_none};
use ifmap_reader::laws::{bytes_spell_an_element_or_none, what_bytes_spell_fits};

/// The element of an identifier that an element gave is that identifier again. A document can have
/// it, it is arranged, and it has two levels at most: so it is read back through its bytes too.
pub fn identifiers_are_read_back()
    ensures again { (identifier : Identifier) → IsIdentifier identifier →
        IsCanon (identifier_element identifier) identifier }
    ensures fit { (identifier : Identifier) → IsIdentifier identifier →
        IsFit (identifier_element identifier) }
    ensures arranged { (identifier : Identifier) →
        arrange (identifier_element identifier) ≡ identifier_element identifier }
    ensures levels { (identifier : Identifier) → nesting (identifier_element identifier) ≤ 2 }
{
    addresses_have_one_size();
    what_bytes_spell_fits();
}

/// An element is one identifier at most, and has one answer but for want of memory: there is such an
/// answer, and it is the only one.
pub fn elements_have_one_answer()
    ensures identifier { (element : Element) (one other : Identifier) →
        IsCanon element one → IsCanon element other → one ≡ other }
    ensures answer { (element : Element) (one other : Result Identifier IdentError) →
        IsAnswer element one → IsAnswer element other → AreOneAnswer one other }
    ensures some { (element : Element) → HasAnswer element }
{
    bytes_spell_an_element_or_none();
    texts_are_addresses_or_none();
}

/// Identifiers that elements gave are one exactly where their canonical bytes are.
pub fn bytes_tell_identifiers_apart()
    ensures { (one other : Identifier) → IsIdentifier one → IsIdentifier other →
        identifier_bytes one ≡ identifier_bytes other → one ≡ other }
{
    addresses_have_one_size();
}

/// Each MAC address is an identifier, without a domain.
pub fn mac_addresses_are_identifiers()
    ensures { (value : List ℕ) → AreBelow 256 6 value → IsIdentifier (MacAddress value []) }
{}
