//! Subscriptions, and what a change of the graph does to one.
ghost use Rattle.std.specs.Prelude.{◌≡◌, ℕ, Option, List, None, Some, IsSome, is_some, OnOk, OnErr};
ghost use Rattle.ifmap_delta.specs.Changes.{WouldKeep};
ghost use Rattle.ifmap_delta.specs.SeenViews.{IsUpToDate, ViewSeen};
ghost use Rattle.ifmap_delta.specs.SameSearches.{HasSameSearch};
ghost use Rattle.ifmap_region.specs.Marks.{mark_of, mark_over, row_of};
ghost use Rattle.ifmap_region.specs.Ways.{HasRoom, IsWayBack, Makes, OnlyRoom, Sweeps, taken_from};

use ifmap_elem::Many;
use ifmap_region::{Patch, Region, RegionUndo};
use ifmap_search::{Entry, Found, Search};
use std::alloc::AllocError as NoMemory;
use std::marker::Model;

/// A search whose result is kept up with: which numbers its walks reach, and how large the result is.
#[derive(Drop)]
pub struct Subscription {
    /// What is searched for.
    pub search: Search,
    /// The numbers that walks of the search reach, with their depths.
    pub region: Region,
    /// The size of the result, in the canonical bytes of its entries.
    pub size: u64,
}

/// What a new subscription is answered.
#[derive(Drop)]
pub enum Subscribed {
    /// It is kept, and this is what it finds as it begins.
    Kept {
        subscription: Subscription,
        found: Found,
    },
    /// The result has this size, which is greater than the search allows.
    TooBig {
        size: u64,
    },
}

/// What a change of the graph does to a subscription.
#[derive(Drop)]
pub struct Moved {
    /// The entries that go from the result, in its order.
    pub deleted: Many<Entry>,
    /// The entries that come into the result, in its order.
    pub updated: Many<Entry>,
    /// The depths that come, go or change.
    pub patch: Patch,
    /// The size of the result after the change, also where the search does not allow it.
    pub new_size: u64,
}

/// The way back of a change that a subscription has taken over. Contracts see the marks and the size that
/// were there before.
#[derive(Drop)]
pub struct SubUndo {
    region: RegionUndo,
    size: u64,
}

impl Model for SubUndo {
    ghost use Rattle.std.specs.Prelude.{ℕ, List, Option};

    ghost Value = { List (ℕ × Option ℕ) × ℕ };

    ghost view = { λ u. (u.region, u.size) };
}

impl Subscription {
    /// Makes room for what a change does: afterwards each number of its patch has a row. The marks
    /// and the size stay as they are.
    ///
    /// After want of memory the rows are as before.
    pub fn reserve(&mut self, moved: &Moved) -> Result<(), NoMemory>
        ensures search { HasSameSearch self.old self.new }
        ensures size { self.new.size ≡ self.old.size }
        ensures marks { (v : ℕ) → mark_of self.new.region.marks.entries v
            ≡ mark_of self.old.region.marks.entries v }
        ensures room { OnOk result (HasRoom moved.now.patch self.new.region.marks.entries) }
        ensures only { OnOk result (OnlyRoom moved.now.patch self.old.region.marks.entries
            self.new.region.marks.entries) }
        ensures err { OnErr result (self.new.region.marks.entries
            ≡ self.old.region.marks.entries) }
    {
        self.region.reserve(&moved.patch)
    }

    /// Takes over a patch and a size, and leaves no row of the patch's numbers without a mark. It
    /// takes no memory, and needs the room of `reserve`.
    pub fn commit(&mut self, patch: Patch, new_size: u64)
        requires { HasRoom patch self.old.region.marks.entries }
        ensures search { HasSameSearch self.old self.new }
        ensures size { self.new.size ≡ new_size }
        ensures marks { (v : ℕ) → mark_of self.new.region.marks.entries v
            ≡ mark_over patch (mark_of self.old.region.marks.entries) v }
        ensures swept { (v : ℕ) → IsSome (row_of patch v)
            → row_of self.new.region.marks.entries v ≡ Some None → ⊥ }
        ensures others { (v : ℕ) → row_of patch v ≡ None
            → is_some (row_of self.new.region.marks.entries v)
            ≡ is_some (row_of self.old.region.marks.entries v) }

        // Where the patch and the size are those of a change, the subscription keeps what the draft
        // has.
        ensures kept { (g : ViewSeen) → WouldKeep g self.old patch new_size
            → IsUpToDate g self.new }
    {
        self.region.commit(patch);
        self.size = new_size;
    }

    /// Takes over a patch and a size and gives the way back. All rows stay. It takes no memory, and
    /// needs the room of `reserve`.
    pub fn commit_kept(&mut self, patch: Patch, new_size: u64) -> SubUndo
        requires { HasRoom patch self.old.region.marks.entries }
        ensures search { HasSameSearch self.old self.new }
        ensures size { self.new.size ≡ new_size }
        ensures makes { Makes patch self.old.region.marks.entries self.new.region.marks.entries }
        ensures undo { result.0 ≡ taken_from (mark_of self.old.region.marks.entries) patch }
        ensures undo_size { result.1 ≡ self.old.size }
        ensures room { HasRoom result.0 self.new.region.marks.entries }
        ensures kept { (g : ViewSeen) → WouldKeep g self.old patch new_size
            → IsUpToDate g self.new }
    {
        let region = self.region.commit_kept(patch);
        let size = self.size;
        self.size = new_size;
        SubUndo { region, size }
    }

    /// Takes a change back and gives its patch back. All rows stay. It takes no memory, and needs
    /// the rows of the patch's numbers.
    pub fn undo(&mut self, undo: SubUndo) -> Patch
        requires { HasRoom undo.0 self.old.region.marks.entries }
        ensures search { HasSameSearch self.old self.new }
        ensures size { self.new.size ≡ undo.1 }
        ensures makes { Makes undo.0 self.old.region.marks.entries
            self.new.region.marks.entries }
        ensures taken { result ≡ taken_from (mark_of self.old.region.marks.entries) undo.0 }
        ensures room { HasRoom result self.new.region.marks.entries }

        // Where the marks are those that `commit_kept` left, they are again those before it,
        // whatever rows later patches have by then.
        ensures back { (patch : List (ℕ × Option ℕ)) (before : ℕ → Option ℕ)
            → IsWayBack undo.0 patch before (mark_of self.old.region.marks.entries)
            → (v : ℕ) → mark_of self.new.region.marks.entries v ≡ before v }
        ensures patch { (patch : List (ℕ × Option ℕ)) (before : ℕ → Option ℕ)
            → IsWayBack undo.0 patch before (mark_of self.old.region.marks.entries)
            → (v : ℕ) → row_of result v ≡ row_of patch v }
    {
        self.size = undo.size;
        self.region.undo(undo.region)
    }

    /// Ends a change that was kept: the marks and the size stay, and the rows of its numbers that
    /// have no mark go. It takes no memory.
    pub fn settle(&mut self, undo: SubUndo)
        ensures search { HasSameSearch self.old self.new }
        ensures size { self.new.size ≡ self.old.size }
        ensures marks { (v : ℕ) → mark_of self.new.region.marks.entries v
            ≡ mark_of self.old.region.marks.entries v }
        ensures rows { Sweeps undo.0 self.old.region.marks.entries
            self.new.region.marks.entries }
    {
        self.region.settle(undo.region);
    }

    /// Gives up a patch for which room was made, and which is not made: the marks and the size
    /// stay, and the rows of its numbers that have no mark go. It takes no memory.
    pub fn forget(&mut self, patch: Patch)
        ensures search { HasSameSearch self.old self.new }
        ensures size { self.new.size ≡ self.old.size }
        ensures marks { (v : ℕ) → mark_of self.new.region.marks.entries v
            ≡ mark_of self.old.region.marks.entries v }
        ensures rows { Sweeps patch self.old.region.marks.entries self.new.region.marks.entries }
    {
        self.region.forget(patch);
    }
}
