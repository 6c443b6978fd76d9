//! A list with one that may take its place, without memory.
ghost use Rattle.std.specs.Prelude.{◌≡◌, ◌++◌, List, [], ◌∷◌, Some, None, IsSome, OnOk, OnErr, is_some};
ghost use Rattle.ifmap_graph.specs.Sides.{list_next};

use std::alloc::{AllocError as NoMemory, Global};
use std::marker::Model;
use std::mem;

/// A list, and the draft of another.
#[derive(Drop)]
pub struct Sided<T> {
    list: Vec<T>,
    draft: Option<Vec<T>>,
}

impl<T> Model for Sided<T> {
    ghost use Rattle.std.specs.Prelude.{option_map};
    ghost use Rattle.ifmap_graph.specs.Sides.{Sides, sides_code};

    ghost Value = { Sides T };

    ghost coded = { sides_code T.code };

    ghost view = { λ s. record { now = s.list.items; draft = option_map (λ l. l.items) s.draft } };
}

impl<T> Sided<T> {
    /// Empty, with no draft. It takes no memory.
    pub fn new(alloc: Global) -> Sided<T>
        ensures { result ≡ record { now = []; draft = None } }
    {
        Sided {
            list: Vec::new(alloc),
            draft: None,
        }
    }

    pub fn list_now(&self) -> &[T]
        ensures { result.now ≡ self.now.now }
    {
        &self.list
    }

    /// The draft, or the list where there is none.
    pub fn list_next(&self) -> &[T]
        ensures { result.now ≡ list_next self.now }
    {
        match &self.draft {
            Some(list) => list,
            None => &self.list,
        }
    }

    /// Sets the draft.
    pub fn propose(&mut self, list: Vec<T>)
    where
        T: Drop,
        ensures { self.new ≡ record self.old { draft = Some list.items } }
    {
        self.draft = Some(list);
    }

    /// Whether there is a draft.
    pub fn has_draft(&self) -> bool
        ensures { result ≡ is_some self.now.draft }
    {
        self.draft.is_some()
    }

    /// One more at the end of the draft.
    pub fn push_draft(&mut self, x: T) -> Result<(), NoMemory>
    where
        T: Drop,
        requires { IsSome self.old.draft }
        ensures ok { OnOk result ((list : List T) → self.old.draft ≡ Some list
            → self.new ≡ record self.old { draft = Some (list ++ x ∷ []) }) }
        ensures now { self.new.now ≡ self.old.now }
        ensures drafted { IsSome self.new.draft }
        ensures err { OnErr result (self.new ≡ self.old) }
    {
        match &mut self.draft {
            Some(list) => {
                list.push(x)?;
                Ok(())
            }
            None => unreachable!(),
        }
    }

    /// The draft takes the list's place. Gives the list that was.
    pub fn accept(&mut self) -> Vec<T>
        requires { IsSome self.old.draft }
        ensures list { (list : List T) → self.old.draft ≡ Some list
            → self.new ≡ record { now = list; draft = None } }
        ensures old { result.items ≡ self.old.now }
    {
        match self.draft.take() {
            Some(list) => mem::replace(&mut self.list, list),
            None => unreachable!(),
        }
    }

    /// Forgets the draft.
    pub fn discard(&mut self)
    where
        T: Drop,
        ensures { self.new ≡ record self.old { draft = None } }
    {
        self.draft = None;
    }

    /// Exchanges the list with another.
    pub fn exchange(&mut self, other: &mut Vec<T>)
        ensures list { self.new ≡ record self.old { now = other.old.items } }
        ensures other { other.new.items ≡ self.old.now }
    {
        mem::swap(&mut self.list, other);
    }
}
