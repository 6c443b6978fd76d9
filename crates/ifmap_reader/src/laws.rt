//! Laws on what bytes spell and on the places at which they are refused: functions that do nothing,
//! whose contracts are the laws.
ghost use Rattle.std.specs.Prelude.{ℕ, List};
ghost use Rattle.std.specs.List.{AllByRecursion};
ghost use Rattle.ifmap_lemmas.specs.Deciding.{Decided};
ghost use Rattle.ifmap_elem.specs.declared.readings.Reading.{Reading};
ghost use Rattle.ifmap_elem.specs.Fit.{IsFit, IsNamespace};
ghost use Rattle.ifmap_elem.specs.Places.{Deep, Stop};
ghost use Rattle.ifmap_elem.specs.Spells.{Spells};
ghost use Rattle.ifmap_reader.specs.Reads.{AtMostOne};

use ifmap_lexer::laws::token_stands_or_none;

/// There is at most one place where bytes cease to begin a document.
pub fn bytes_stop_at_one_place()
    ensures { (bytes : List ℕ) → AtMostOne (Stop bytes) }
{}

/// A list of bytes has at most one first tag that opens a level too many.
pub fn bytes_nest_too_deep_at_one_place()
    ensures { (bytes : List ℕ) (depth : ℕ) → AtMostOne (Deep bytes depth) }
{}

/// What bytes spell is an element that a document can have.
pub fn what_bytes_spell_fits()
    ensures { (bytes : List ℕ) (reading : Reading) → Spells bytes reading → IsFit reading.root }
{}

/// Each namespace that bytes declare is one that a document can declare, or none.
pub fn what_bytes_declare_fits()
    ensures { (bytes : List ℕ) (reading : Reading) → Spells bytes reading →
        AllByRecursion (λ d. IsNamespace d.space) reading.declared }
{}

/// There is a place where bytes cease to begin a document.
pub fn bytes_stop_somewhere()
    ensures { (bytes : List ℕ) → (at : ℕ) × Stop bytes at }
{
    token_stands_or_none();
}

/// Some tag is the first that opens a level too many, or none does.
pub fn bytes_nest_too_deep_or_not()
    ensures { (bytes : List ℕ) (depth : ℕ) → Decided ((at : ℕ) × Deep bytes depth at) }
{
    token_stands_or_none();
}

/// Bytes spell an element with its declarations, or they spell none.
pub fn bytes_spell_an_element_or_none()
    ensures { (bytes : List ℕ) → Decided ((reading : Reading) × Spells bytes reading) }
{
    token_stands_or_none();
}
