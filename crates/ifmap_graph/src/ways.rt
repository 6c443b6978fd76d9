//! The places at which lists change.
ghost use Rattle.std.specs.Prelude.{◌≡◌, ℕ, ◌<◌, List, [], IsSome, length};
ghost use Rattle.ifmap_graph.specs.Sides.{Sides, list_next};
ghost use Rattle.ifmap_graph.specs.Turning.{accepted_sides, restored_sides, accept_each, restore_each, backs, AcceptsAt, AreDrafted, AreWithin, IsDraftedAt, IsWithinAt, KeepsListAt, RestoresAt};

use crate::sided::Sided;
use std::alloc::Global;
use std::marker::Model;

/// A place, with room for the list that was there.
#[derive(Drop)]
pub struct ReplacedList<T> {
    at: usize,
    list: Vec<T>,
}

impl<T> Model for ReplacedList<T> {
    ghost use Rattle.std.specs.Prelude.{ℕ, List};
    ghost use Rattle.std.specs.Coded.{coded×, coded_ℕ, coded_list};

    ghost Value = { ℕ × List T };

    ghost coded = { coded× coded_ℕ (coded_list T.code) };

    ghost view = { λ w. (w.at, w.list.items) };
}

impl<T> ReplacedList<T> {
    /// It takes no memory.
    pub fn new(alloc: Global, at: usize) -> ReplacedList<T>
        ensures { result ≡ (at, []) }
    {
        ReplacedList {
            at,
            list: Vec::new(alloc),
        }
    }

    pub fn place(&self) -> usize
        ensures { result ≡ self.now.0 }
    {
        self.at
    }

    fn accept(&mut self, sides: &mut Sided<T>)
    where
        T: Drop,
        requires { IsSome sides.old.draft }
        ensures sides { sides.new ≡ accepted_sides sides.old }
        ensures way { self.new ≡ (self.old.0, sides.old.now) }
    {
        self.list = sides.accept();
    }

    fn restore(&mut self, sides: &mut Sided<T>)
        ensures sides { sides.new ≡ restored_sides sides.old self.old.1 }
        ensures way { self.new ≡ (self.old.0, sides.old.now) }
    {
        sides.exchange(&mut self.list);
    }
}

fn accept_at<T: Drop>(lists: &mut Vec<Sided<T>>, ways: &mut Vec<ReplacedList<T>>, i: usize)
    requires place { i < length ways.old.items }
    requires within { IsWithinAt ways.old.items i lists.old.items }
    requires drafted { IsDraftedAt ways.old.items i lists.old.items }
    ensures lists { AcceptsAt ways.old.items i lists.old.items lists.new.items }
    ensures ways { KeepsListAt lists.old.items i ways.old.items ways.new.items }
{
    let at = ways[i].place();
    ways[i].accept(&mut lists[at]);
}

/// The drafts at these places take the places of the lists, which come to stand in the ways.
pub fn accept_all<T: Drop>(lists: &mut Vec<Sided<T>>, ways: &mut Vec<ReplacedList<T>>)
    requires { AreDrafted ways.old.items lists.old.items }
    ensures lists { lists.new.items ≡ accept_each ways.old.items lists.old.items }
    ensures ways { ways.new.items ≡ backs ways.old.items lists.old.items }
{
    for i in 0..ways.len() {
        accept_at(lists, ways, i);
    }
}

fn restore_at<T>(lists: &mut Vec<Sided<T>>, ways: &mut Vec<ReplacedList<T>>, i: usize)
    requires place { i < length ways.old.items }
    requires within { IsWithinAt ways.old.items i lists.old.items }
    ensures lists { RestoresAt ways.old.items i lists.old.items lists.new.items }
    ensures ways { KeepsListAt lists.old.items i ways.old.items ways.new.items }
{
    let at = ways[i].place();
    ways[i].restore(&mut lists[at]);
}

/// The lists that stand in the ways take their places again, one after the other.
pub fn restore_all<T>(lists: &mut Vec<Sided<T>>, ways: &mut Vec<ReplacedList<T>>)
    requires { AreWithin ways.old.items (length lists.old.items) }
    ensures { lists.new.items ≡ restore_each ways.old.items lists.old.items }
{
    for i in 0..ways.len() {
        restore_at(lists, ways, i);
    }
}
