//! Rows of one item in their order, with an index by key.
ghost use Rattle.std.specs.Prelude.{◌≡◌, ◌≤◌, [], Contains, IfNone, IfOk, IfSome, OnOk, length};
ghost use Rattle.std.specs.List.{AllByRecursion};
ghost use Rattle.std.specs.List.Sorted.{IsStrictlySortedBy};
ghost use Rattle.ifmap_meta.specs.Keys.{HaveOneKey};
ghost use Rattle.ifmap_plans.specs.Lists.{list_without, next_on, put_each};
ghost use Rattle.ifmap_plans.specs.Placing.{put};
ghost use Rattle.ifmap_plans.specs.ifmap_view.Attachments.{stored_order};
ghost use Rattle.ifmap_rows.specs.Indexed.{without_one};

use crate::index::{
    WordRow, exchange_word_row, find_keyed, join_index, merge_index, share_others_in_index,
    take_word_row, take_word_rows,
};
use crate::lists::{
    are_many_in_order, exchange_row, join_rows, merge_rows, share_others, take_row, take_rows,
};
use ifmap_plans::Row;
use std::alloc::{AllocError as NoMemory, Global};
use std::marker::Model;
use std::mem;

/// Rows of one item in their order, with an index by key. Contracts see the stored elements, in
/// their order.
#[derive(Drop)]
pub struct Rows {
    by_bytes: Vec<Row>,
    by_word: Vec<WordRow>,
}

impl Model for Rows {
    ghost use Rattle.std.specs.Prelude.{List};
    ghost use Rattle.std.specs.Coded.{coded_list};
    ghost use Rattle.ifmap_meta.specs.contracts.stored.Stored as the_stored;
    ghost use Rattle.ifmap_meta.specs.declared.stored.Stored.{Stored};
    ghost use Rattle.ifmap_rows.specs.Indexed.{IsIndexed};

    ghost Value = { List Stored };

    ghost coded = { coded_list the_stored.the_row.coded };

    ghost view = { λ r. r.by_bytes.items };

    ghost invariant = { λ r. IsIndexed r.by_bytes.items r.by_word.items };
}

impl Rows {
    /// No rows. It takes no memory.
    pub fn new(alloc: Global) -> Rows
        ensures { result ≡ [] }
    {
        Rows {
            by_bytes: Vec::new(alloc),
            by_word: Vec::new(alloc),
        }
    }

    /// The rows in their order. It takes no memory.
    pub fn as_slice(&self) -> &[Row]
        ensures rows { result.now ≡ self.now }
        ensures rising { IsStrictlySortedBy stored_order self.now }
    {
        &self.by_bytes
    }

    /// How many rows there is room for. It takes no memory.
    pub fn room(&self) -> usize
        ensures { length self.now ≤ result }
    {
        self.by_bytes.capacity()
    }

    /// The same rows once more: no element is copied. The one error is want of memory.
    pub fn share(&self, alloc: Global) -> Result<Rows, NoMemory>
        ensures { IfOk result (λ rows. rows ≡ self.now) }
    {
        self.share_with_room(alloc, 0)
    }

    /// The row that has the key of this one, where there is one. It takes no memory.
    pub fn row_with_key(&self, row: &Row) -> Option<&Row>
        ensures found { IfSome result (λ found.
            Contains self.now found.now × HaveOneKey row.now found.now) }
        ensures none { IfNone result (AllByRecursion (λ s. HaveOneKey row.now s → ⊥) self.now) }
    {
        find_keyed(&self.by_word, row)
    }

    /// The rows after a change: those that have not the canonical bytes of a removed row, and then
    /// each added one in its place, over one of the same bytes. These stay as they are. No element is
    /// copied, and of many that go none is shared. The one error is want of memory.
    pub fn make_next(&self, alloc: Global, removed: &[Row], added: &[Row]) -> Result<Rows, NoMemory>
        ensures { IfOk result (λ rows. rows ≡ next_on removed.now added.now self.now) }
    {
        let mut rows = self.make_left(alloc, removed, added.len())?;
        rows.put_all(added)?;
        Ok(rows)
    }

    // The rows that have not the canonical bytes of one of these, with room for others.
    fn make_left(&self, alloc: Global, removed: &[Row], more: usize) -> Result<Rows, NoMemory>
        ensures { IfOk result (λ rows. rows ≡ list_without removed.now self.now) }
    {
        if are_many_in_order(removed) {
            return self.share_others(alloc, removed, more);
        }
        let mut rows = self.share_with_room(alloc, more)?;
        rows.take_each(removed);
        Ok(rows)
    }

    // The same rows once more, with room for others.
    fn share_with_room(&self, alloc: Global, more: usize) -> Result<Rows, NoMemory>
        ensures { IfOk result (λ rows. rows ≡ self.now) }
    {
        let rows = self.share_others(alloc, &[], more)?;
        Ok(rows)
    }

    // The rows that have not the canonical bytes of one of some that rise, with room for others.
    fn share_others(&self, alloc: Global, removed: &[Row], more: usize) -> Result<Rows, NoMemory>
        requires { IsStrictlySortedBy stored_order removed.now }
        ensures { IfOk result (λ rows. rows ≡ list_without removed.now self.now) }
    {
        let others = Rows {
            by_bytes: share_others(alloc, &self.by_bytes, removed, more)?,
            by_word: share_others_in_index(alloc, &self.by_word, removed, more)?,
        };
        Ok(others)
    }

    /// Carries a change out in place: those of the canonical bytes of a removed row go, and then
    /// each added one comes to its place, over one of the same bytes. The one error is want of
    /// memory, and then nothing is claimed of the rows: a part of the change may be made, or none may
    /// be left.
    pub fn carry_out(&mut self, removed: &[Row], added: &[Row]) -> Result<(), NoMemory>
        ensures { OnOk result (self.new ≡ next_on removed.now added.now self.old) }
    {
        self.take_all(removed);
        self.put_all(added)
    }

    /// The same, where no row that comes has the canonical bytes of one that stays: of many none is
    /// looked for among the others.
    pub fn exchange(&mut self, removed: &[Row], added: &[Row]) -> Result<(), NoMemory>
        requires { list_without added.now (list_without removed.now self.old)
            ≡ list_without removed.now self.old }
        ensures { OnOk result (self.new ≡ next_on removed.now added.now self.old) }
    {
        self.take_all(removed);
        self.put_apart(added)
    }

    // Each row comes to its place, where none that is there has its canonical bytes.
    fn put_apart(&mut self, added: &[Row]) -> Result<(), NoMemory>
        requires { list_without added.now self.old ≡ self.old }
        ensures { OnOk result (self.new ≡ put_each added.now self.old) }
    {
        if are_many_in_order(added) {
            self.merge(added)
        } else {
            self.put_each(added)
        }
    }

    // The same, of rows that rise. After want of memory there are no rows.
    fn merge(&mut self, added: &[Row]) -> Result<(), NoMemory>
        requires added { IsStrictlySortedBy stored_order added.now }
        requires apart { list_without added.now self.old ≡ self.old }
        ensures { OnOk result (self.new ≡ put_each added.now self.old) }
    {
        let none = Rows::new(*self.by_bytes.allocator());
        let Rows { by_bytes, by_word } = mem::replace(self, none);
        let mut by_bytes = by_bytes;
        merge_rows(&mut by_bytes, added)?;
        let by_word = merge_index(by_word, added)?;
        *self = Rows { by_bytes, by_word };
        Ok(())
    }

    // Those of the canonical bytes of one of these go.
    fn take_all(&mut self, removed: &[Row])
        ensures { self.new ≡ list_without removed.now self.old }
    {
        if are_many_in_order(removed) {
            self.take_at_once(removed);
        } else {
            self.take_each(removed);
        }
    }

    // The same, of rows that rise.
    fn take_at_once(&mut self, removed: &[Row])
        requires { IsStrictlySortedBy stored_order removed.now }
        ensures { self.new ≡ list_without removed.now self.old }
    {
        take_rows(&mut self.by_bytes, removed);
        take_word_rows(&mut self.by_word, removed);
    }

    // The same, one after the other.
    fn take_each(&mut self, removed: &[Row])
        ensures { self.new ≡ list_without removed.now self.old }
    {
        for row in removed {
            self.take(row);
        }
    }

    // Each row comes to its place.
    fn put_all(&mut self, added: &[Row]) -> Result<(), NoMemory>
        ensures { OnOk result (self.new ≡ put_each added.now self.old) }
    {
        if are_many_in_order(added) {
            self.put_at_once(added)
        } else {
            self.put_each(added)
        }
    }

    // The same, of rows that rise. After want of memory there are no rows.
    fn put_at_once(&mut self, added: &[Row]) -> Result<(), NoMemory>
        requires { IsStrictlySortedBy stored_order added.now }
        ensures { OnOk result (self.new ≡ put_each added.now self.old) }
    {
        let none = Rows::new(*self.by_bytes.allocator());
        let Rows { by_bytes, by_word } = mem::replace(self, none);
        let mut by_bytes = by_bytes;
        join_rows(&mut by_bytes, added)?;
        let by_word = join_index(by_word, added)?;
        *self = Rows { by_bytes, by_word };
        Ok(())
    }

    // The same, one after the other.
    fn put_each(&mut self, added: &[Row]) -> Result<(), NoMemory>
        ensures { OnOk result (self.new ≡ put_each added.now self.old) }
    {
        for row in added {
            self.put(row)?;
        }
        Ok(())
    }

    // The row of these canonical bytes goes, where there is one.
    fn take(&mut self, row: &Row)
        ensures { self.new ≡ without_one stored_order row.now self.old }
    {
        if let Some(taken) = take_row(&mut self.by_bytes, row) {
            take_word_row(&mut self.by_word, &WordRow::new(taken));
        }
    }

    // A row comes to its place, over the one of its canonical bytes, where there is one. Room is made
    // in both lists before it is put into one, so that want of memory leaves them in step.
    fn put(&mut self, row: &Row) -> Result<(), NoMemory>
        ensures { OnOk result (self.new ≡ put stored_order row.now self.old) }
    {
        let one = row.share()?;
        let other = row.share()?;
        self.by_bytes.reserve(1)?;
        self.by_word.reserve(1)?;
        let replaced = exchange_row(&mut self.by_bytes, one);
        exchange_word_row(&mut self.by_word, replaced, other);
        Ok(())
    }
}
