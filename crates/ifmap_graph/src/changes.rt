//! Changes that are out, and changes that can be taken back.
use crate::row_lists::RowList;
use crate::ways::ReplacedList;
use ifmap_elem::Many;
use ifmap_plans::Plan;
use ifmap_view::LinkSeen;

/// A change that is out: all memory that it needs is taken.
#[derive(Drop)]
pub struct Ready {
    /// What changes.
    pub plan: Plan,
    /// Room for the list that gives way, for each item of the plan.
    pub lists: Many<RowList>,
    /// The numbers whose links come or go.
    pub ways: Many<ReplacedList<LinkSeen>>,
}

/// A change that was made, with what was there before.
#[derive(Drop)]
pub struct Undo {
    /// What changed.
    pub plan: Plan,
    /// The list that was there, for each item of the plan.
    pub lists: Many<RowList>,
    /// The numbers whose links came or went, with those that were there.
    pub ways: Many<ReplacedList<LinkSeen>>,
}
