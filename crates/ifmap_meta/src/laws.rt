//! Laws on stamps and keys: functions that do nothing, whose contracts are the laws.
ghost use Rattle.std.specs.Prelude.{◌≡◌, ◌≤◌, ℕ, List};
ghost use Rattle.std.specs.List.{filter};
ghost use Rattle.ifmap_elem.specs.Fit.{IsFit};
ghost use Rattle.ifmap_elem.specs.Nesting.{nesting};
ghost use Rattle.ifmap_elem.specs.declared.elements.Element.{Element};
ghost use Rattle.ifmap_meta.specs.declared.metadata.Metadata.{Metadata};
ghost use Rattle.ifmap_meta.specs.declared.stored.Life.{Life};
ghost use Rattle.ifmap_meta.specs.declared.stored.Stored.{Stored};
ghost use Rattle.ifmap_meta.specs.Cardinality.{cardinality_of};
ghost use Rattle.ifmap_meta.specs.ClientNames.{IsClientName};
ghost use Rattle.ifmap_meta.specs.Keys.{HaveOneKey, content_bytes, word_of};
ghost use Rattle.ifmap_meta.specs.Stamps.{is_stamp, stamp, stamps};
ghost use Rattle.ifmap_meta.specs.Stored.{stored_as};
ghost use Rattle.ifmap_meta.specs.Whole.{IsMadeOf, IsMetadata, IsWhole, level_limit};

/// A stamped element has exactly the stamps that it was given.
pub fn stamped_elements_have_their_stamps_alone()
    ensures { (publisher : List ℕ) (moment : ℕ) (element : Element)
        → filter is_stamp (stamp publisher moment element).attributes ≡ stamps publisher moment }
{}

/// What is stamped of metadata that can be published is whole; and what is made of an element that a
/// document can have, of 64 levels at most, is metadata that can be published.
pub fn stamped_metadata_are_whole()
    ensures made { (element : Element) (metadata : Metadata) → IsFit element
        → nesting element ≤ level_limit → IsMadeOf element metadata → IsMetadata metadata }
    ensures whole { (metadata : Metadata) (publisher : List ℕ) (moment : ℕ) (life : Life)
        → IsMetadata metadata → IsClientName publisher
        → IsWhole (stored_as metadata.element publisher moment life) }
{}

/// Metadata that can be published are what is made of their own element.
pub fn metadata_are_made_of_their_element()
    ensures { (metadata : Metadata) → IsMetadata metadata → IsMadeOf metadata.element metadata }
{}

/// Stamping keeps what keys compare: the content, the name and the cardinality.
pub fn stamping_keeps_what_keys_compare()
    ensures content { (publisher : List ℕ) (moment : ℕ) (element : Element)
        → content_bytes (stamp publisher moment element) ≡ content_bytes element }
    ensures name { (publisher : List ℕ) (moment : ℕ) (element : Element)
        → (stamp publisher moment element).name ≡ element.name }
    ensures cardinality { (publisher : List ℕ) (moment : ℕ) (element : Element)
        → cardinality_of (stamp publisher moment element) ≡ cardinality_of element }
{}

/// What has one key has one word.
pub fn words_of_one_key_agree()
    ensures { (one other : Stored) → HaveOneKey one other → word_of one ≡ word_of other }
{}
