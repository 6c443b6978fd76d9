//! Laws on what subscriptions are told: functions that do nothing, whose contracts are the laws.
ghost use Rattle.std.specs.Prelude.{◌≡◌, true, List, [], ◌∷◌, ℕ, Some};
ghost use Rattle.std.specs.List.Sorted.{IsStrictlySortedBy};
ghost use Rattle.ifmap_folds.specs.Differences.{difference, entry_order, same_entry};
ghost use Rattle.ifmap_folds.specs.Folds.{Sets, fold_items};
ghost use Rattle.ifmap_lemmas.specs.Having.{Has};
ghost use Rattle.ifmap_fresh.specs.ifmap_search.declared.results.Entry.{Entry};
ghost use Rattle.ifmap_fresh.specs.ifmap_search.declared.results.PollItem.TheVariants.{Delete, Update};

/// A client whose set is a result and that is told what went from it, and then what came, has the next
/// result. Both are in the order of results, and their entries are told apart by bytes, as those of
/// elements that a document can have are.
pub fn differences_make_the_next_result()
    ensures { (sets : Sets) (name : List ℕ) (a b : List Entry) → sets name ≡ Some a
        → ((x y : Entry) → Has a x → Has b y → same_entry x y ≡ true → x ≡ y)
        → IsStrictlySortedBy entry_order a → IsStrictlySortedBy entry_order b
        → fold_items (Delete name (difference a b) ∷ (Update name (difference b a) ∷ [])) sets name
        ≡ Some b }
{}
