//! Laws on what bytes spell: functions that do nothing, whose contracts are the laws.
ghost use Rattle.std.specs.Prelude.{◌≡◌, ◌↔◌, ℕ, List};
ghost use Rattle.std.specs.List.{AllByRecursion};
ghost use Rattle.ifmap_elem.specs.declared.readings.Reading.{Reading};
ghost use Rattle.ifmap_elem.specs.Spells.{Spells};
ghost use Rattle.ifmap_elem.specs.declared.elements.Element.{Element};
ghost use Rattle.ifmap_elem.specs.declared.tokens.Token.{Token};
ghost use Rattle.ifmap_elem.specs.Arranged.{IsSame, arrange};
ghost use Rattle.ifmap_elem.specs.Canonical.{canonical_bytes, canonical_reading, written_bytes, written_reading};
ghost use Rattle.ifmap_elem.specs.Fit.{IsDeclarable, IsFit};
ghost use Rattle.ifmap_elem.specs.Nesting.{nesting};
ghost use Rattle.ifmap_elem.specs.Tokens.{TakesToken};
ghost use Rattle.ifmap_elem.specs.InScope.{NamedHaveScopes, ResolvesAsDeclared, ScopesAreNamed};

/// At most one token stands at the front of bytes, and it takes the same bytes.
pub fn one_token_stands_at_the_front()
    ensures { (bytes : List ℕ) (one other : Token) (rest after : List ℕ) →
        TakesToken bytes one rest → TakesToken bytes other after → (one ≡ other) × (rest ≡ after) }
{}

/// A list of bytes spells at most one element, with one list of declarations.
pub fn bytes_spell_one_element()
    ensures { (bytes : List ℕ) (one other : Reading) →
        Spells bytes one → Spells bytes other → one ≡ other }
{}

/// The canonical bytes of an element that fits spell the element with its attributes in order, which
/// nests as deep as the element, and declare the prefixes `n1`, `n2` and so on of its namespaces at
/// the root, and nothing else.
pub fn canonical_bytes_spell_the_element()
    ensures spelled { (element : Element) → IsFit element →
        Spells (canonical_bytes element) (canonical_reading element) }
    ensures nesting { (element : Element) → nesting (arrange element) ≡ nesting element }
{}

/// So do the bytes with declarations of given namespaces, which also declare their prefixes `f1`,
/// `f2` and so on at the root.
pub fn written_bytes_spell_the_element()
    ensures { (element : Element) (spaces : List (List ℕ)) → IsFit element →
        AllByRecursion IsDeclarable spaces →
        Spells (written_bytes element spaces) (written_reading element spaces) }
{}

/// Elements that fit have the same canonical bytes exactly where they are the same but for the order
/// of attributes.
pub fn canonical_bytes_tell_elements_apart()
    ensures { (one other : Element) → IsFit one → IsFit other →
        ((canonical_bytes one ≡ canonical_bytes other) ↔ IsSame one other) }
{}

/// Where bytes spell a reading and a path names an element in it, the declarations that were read bind
/// each listed prefix there to what that element's own scope binds it to.
pub fn declarations_tell_the_scopes()
    ensures { (bytes : List ℕ) (r : Reading) → Spells bytes r → ResolvesAsDeclared bytes r }
{}

/// Where bytes spell a reading, each element that a path of child indexes names in it has a scope of
/// its own in the bytes, which resolves its name and its attributes' names; and each scope that the
/// bytes have at a path is that of an element which the path names.
pub fn named_elements_have_scopes()
    ensures have { (bytes : List ℕ) (r : Reading) → Spells bytes r → NamedHaveScopes bytes r }
    ensures named { (bytes : List ℕ) (r : Reading) → Spells bytes r → ScopesAreNamed bytes r }
{}
