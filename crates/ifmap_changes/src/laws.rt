//! Laws on the parts of the machine: functions that do nothing, whose contracts are the laws.
ghost use Rattle.std.specs.Prelude.{◌≡◌, ◌≤◌, ℕ, List, Some};
ghost use Rattle.std.specs.List.{AllByRecursion};
ghost use Rattle.ifmap_changes.specs.Between.{AreBack, AreParts, HasLiveMarks, HasStartNumber, IsSeen, IsSteady, starts_of};
ghost use Rattle.ifmap_changes.specs.declared.parts.Parts.{Parts};
ghost use Rattle.ifmap_graph.specs.Inside.{GraphInside, IsOwn};
ghost use Rattle.ifmap_graph.specs.Seen.{BringsNoNumbers, IsStill, rows_now};
ghost use Rattle.ifmap_ident.specs.declared.identifiers.Identifier.{Identifier};
ghost use Rattle.ifmap_graph.specs.ifmap_plans.Plans.{AreWhole};
ghost use Rattle.ifmap_graph.specs.ifmap_pool.Holdings.{key_at};
ghost use Rattle.ifmap_tellings.specs.ifmap_standing.declared.standing.Standing.{Standing};

use ifmap_ident::laws::bytes_tell_identifiers_apart;
use ifmap_tellings::{
    numbers_keep_walks, same_links_keep_subscriptions, same_marks_keep_subscriptions,
};

/// Where numbers only go, those of identifiers that somebody holds stay. So a graph is steady for
/// subscriptions whose starts had their numbers, where others than items hold each identifier as
/// often as these start there.
pub fn held_numbers_stay()
    ensures numbers { (old new : GraphInside) (v : ℕ) (a : Identifier) (own : ℕ) → IsSeen old
        → BringsNoNumbers old new → key_at old.names v ≡ Some a → IsOwn new a own → 1 ≤ own
        → key_at new.names v ≡ Some a }
    ensures steady { (old new : GraphInside) (standing : List Standing) → IsSeen old
        → BringsNoNumbers old new → AllByRecursion (HasStartNumber old) standing → IsStill new
        → AreWhole (rows_now new) → ((a : Identifier) → IsOwn new a (starts_of a standing))
        → IsSteady new standing }
{
    bytes_tell_identifiers_apart();
}

/// Parts that are as they were but for room are sound, where they were.
pub fn what_is_back_is_sound()
    ensures { (old new : Parts) → IsSeen old.graph → IsSeen new.graph → AreParts old
        → AreBack old new → AreParts new }
{
    same_links_keep_subscriptions();
    same_marks_keep_subscriptions();
}

/// In sound parts each number that a subscription has marked has an identifier.
pub fn marked_numbers_are_live()
    ensures { (parts : Parts) → IsSeen parts.graph → AreParts parts
        → AllByRecursion (λ x. HasLiveMarks parts.graph x.subscription) parts.standing.items }
{
    numbers_keep_walks();
}
