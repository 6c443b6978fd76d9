//! What is stored on an item, and what is to be.
ghost use Rattle.std.specs.Prelude.{◌≡◌, [], Some, None, Contains, IfNone, IfOk, IfSome, IsSome};
ghost use Rattle.std.specs.List.{AllByRecursion};
ghost use Rattle.ifmap_meta.specs.declared.stored.Stored.{Stored};
ghost use Rattle.ifmap_meta.specs.Keys.{HaveOneKey};
ghost use Rattle.ifmap_plans.specs.Lists.{next_on};
ghost use Rattle.ifmap_graph.specs.Sides.{list_next};

use crate::row_lists::RowList;
use ifmap_plans::ItemChange;
use ifmap_view::Row;
use std::alloc::{AllocError as NoMemory, Global};
use std::marker::Model;
use std::mem;

/// A list of rows, and the draft of another.
#[derive(Drop)]
pub struct Stock {
    list: RowList,
    draft: Option<Box<RowList>>,
}

impl Model for Stock {
    ghost use Rattle.std.specs.Prelude.{option_map};
    ghost use Rattle.ifmap_meta.specs.contracts.stored.Stored as the_stored;
    ghost use Rattle.ifmap_meta.specs.declared.stored.Stored.{Stored};
    ghost use Rattle.ifmap_graph.specs.Sides.{Sides, sides_code};

    ghost Value = { Sides Stored };

    ghost coded = { sides_code the_stored.the_row.coded };

    ghost view = { λ s. record { now = s.list; draft = option_map (λ l. l.value) s.draft } };
}

impl Stock {
    /// Empty, with no draft. It takes no memory.
    pub fn new() -> Stock
        ensures { result ≡ record { now = []; draft = None } }
    {
        Stock {
            list: RowList::new(),
            draft: None,
        }
    }

    pub fn list_now(&self) -> &[Row]
        ensures { result.now ≡ self.now.now }
    {
        self.list.as_slice()
    }

    /// The draft, or the list where there is none.
    pub fn list_next(&self) -> &[Row]
        ensures { result.now ≡ list_next self.now }
    {
        match &self.draft {
            Some(list) => list.as_slice(),
            None => self.list.as_slice(),
        }
    }

    /// The row of the list that has the key of this one, where there is one.
    pub fn row_with_key(&self, row: &Row) -> Option<&Row>
        ensures found { IfSome result (λ found.
            Contains self.now.now found.now × HaveOneKey row.now found.now) }
        ensures none { IfNone result
            (AllByRecursion (λ s. HaveOneKey row.now s → ⊥) self.now.now) }
    {
        self.list.row_with_key(row)
    }

    /// The list after a change, for a draft. The one error is want of memory.
    pub fn make_next(
        &mut self,
        alloc: Global,
        change: &ItemChange,
    ) -> Result<Box<RowList>, NoMemory>
        ensures next { IfOk result (λ list. list.value
            ≡ next_on change.now.removed change.now.added self.old.now) }
        ensures same { self.new ≡ self.old }
    {
        let list = self.list.make_next(alloc, change)?;
        Ok(Box::new(alloc, list)?)
    }

    /// Sets the draft.
    pub fn propose(&mut self, list: Box<RowList>)
        ensures { self.new ≡ record self.old { draft = Some list.value } }
    {
        self.draft = Some(list);
    }

    /// The draft takes the list's place. Gives the list that was.
    pub fn accept(&mut self) -> RowList
        requires { IsSome self.old.draft }
        ensures list { self.new ≡ record { now = list_next self.old; draft = None } }
        ensures old { result ≡ self.old.now }
    {
        match self.draft.take() {
            Some(list) => mem::replace(&mut self.list, Box::into_inner(list)),
            None => unreachable!(),
        }
    }

    /// Forgets the draft.
    pub fn discard(&mut self)
        ensures { self.new ≡ record self.old { draft = None } }
    {
        self.draft = None;
    }

    /// Exchanges the list with another.
    pub fn exchange(&mut self, other: &mut RowList)
        ensures list { self.new ≡ record self.old { now = other.old } }
        ensures other { other.new ≡ self.old.now }
    {
        mem::swap(&mut self.list, other);
    }
}
