//! Laws of drills: functions that do nothing, whose contracts are the laws.
ghost use Rattle.std.specs.Prelude.{ℕ};
ghost use Rattle.std.specs.List.{AllByRecursion};
ghost use Rattle.ifmap_elem.specs.Chars.{IsCharacters};
ghost use Rattle.ifmap_core.specs.ifmap_machine.Agreeing.{Agrees};
ghost use Rattle.ifmap_core.specs.ifmap_machine.Legal.{AreFit, Legal};
ghost use Rattle.ifmap_core.specs.ifmap_machine.State.{session_seconds};
ghost use Rattle.ifmap_drill.specs.Drills.{drill_history, drilling_after};

use ifmap_core::clients_fold_fresh_results;
use ifmap_ident::laws::mac_addresses_are_identifiers;
use ifmap_meta::laws::stamped_metadata_are_whole;

/// The history that a drill makes is legal, its events are fit, and its clients agree: after each
/// poll that is told something or held, what its client folds of all that it was told is, for each
/// subscription that its session keeps, the fresh result of its search.
pub fn drills_agree()
    ensures legal { (key count : ℕ) → Legal session_seconds (drill_history key count) }
    ensures fit { (key count : ℕ) → AreFit (drill_history key count) }
    ensures agrees { (key count : ℕ) → Agrees session_seconds (drill_history key count) }
{
    mac_addresses_are_identifiers();
    stamped_metadata_are_whole();
    clients_fold_fresh_results();
}

/// The ids that the sessions of a drill are given are of characters that a document can have.
pub fn ids_are_characters()
    ensures { (key count : ℕ) → AllByRecursion IsCharacters (drilling_after key count).ids }
{}
