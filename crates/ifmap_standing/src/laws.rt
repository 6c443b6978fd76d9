//! Laws on what subscriptions keep: functions that do nothing, whose contracts are the laws.
ghost use Rattle.std.specs.Prelude.{◌≡◌, ℕ, Some, List, Option};
ghost use Rattle.ifmap_delta.specs.SeenViews.{IsUpToDate, ViewSeen};
ghost use Rattle.ifmap_delta.specs.declared.subscriptions.Subscription.{Subscription};
ghost use Rattle.ifmap_ident.specs.declared.identifiers.Identifier.{Identifier};
ghost use Rattle.ifmap_standing.specs.Kept.{AtEach, KeepsSame, StaysRelated};
ghost use Rattle.ifmap_standing.specs.Ways.{IsWayGivenUp, LeadBack, Way};
ghost use Rattle.ifmap_standing.specs.declared.standing.Standing.{Standing};
ghost use Rattle.ifmap_view.specs.Views.{IsView};

/// A subscription that keeps what one view has keeps what another has, where both have the same
/// attachments and the same links of each number, numbers that have an identifier in both have the
/// same, and the other has the start of the search at the number where the walks begin. Numbers that
/// carry nothing and that no walk begins at may come and go.
pub fn same_links_keep_subscriptions()
    ensures { (one other : ViewSeen) (sub : Subscription)
        → IsView one.rows one.id_at one.links → IsView other.rows other.id_at other.links
        → other.rows ≡ one.rows → ((v : ℕ) → other.links v ≡ one.links v)
        → ((v : ℕ) (a b : Identifier) → one.id_at v ≡ Some a → other.id_at v ≡ Some b → b ≡ a)
        → other.id_at sub.region.start ≡ Some sub.search.start
        → IsUpToDate one sub → IsUpToDate other sub }
{}

/// Where a subscription keeps what it kept, it keeps what each view has of which it kept it.
pub fn same_marks_keep_subscriptions()
    ensures same { (g : ViewSeen) (old new : Subscription) → KeepsSame old new → IsUpToDate g old
        → IsUpToDate g new }
    ensures settled { (g : ViewSeen) (way : Option (Option Way)) (old new : Subscription)
        → IsWayGivenUp way old new → IsUpToDate g old → IsUpToDate g new }
{}

/// Ways back lead back still after a later change that was taken back.
pub fn ways_stay()
    ensures { (before now after : List Standing) (ways : List (Option Way))
        → LeadBack before ways now → AtEach (λ _. StaysRelated KeepsSame) now after
        → LeadBack before ways after }
{}
