//! A graph as it is after the plan that is out.
ghost use Rattle.std.specs.Prelude.{◌≡◌};
ghost use Rattle.ifmap_pool.specs.Holdings.{key_at};
ghost use Rattle.ifmap_graph.specs.Inside.{links_at};
ghost use Rattle.ifmap_graph.specs.Seen.{links_next, rows_next};
ghost use Rattle.ifmap_graph.specs.Shelved.{list_at, rows_by};
ghost use Rattle.ifmap_graph.specs.Sides.{list_next};
ghost use Rattle.ifmap_view.specs.Views.{IsView};

use crate::graph::Graph;
use ifmap_ident::{Identifier, Item};
use ifmap_steps::Steps;
use ifmap_view::{LinkSeen, Row, View};
use std::marker::Model;
use std::sync::ledger::Ledger;

/// A graph as it is to be. Contracts see the graph.
#[derive(Drop)]
pub struct Draft<'a> {
    graph: &'a Graph,
}

impl<'a> Model for Draft<'a> {
    ghost use Rattle.ifmap_ident.specs.contracts.identifiers.Identifier as the_identifier;
    ghost use Rattle.ifmap_ident.specs.contracts.items.Item as the_item;
    ghost use Rattle.ifmap_view.specs.contracts.views.LinkSeen as the_link;
    ghost use Rattle.ifmap_graph.specs.contracts.shelves.Shelf as the_shelf;
    ghost use Rattle.ifmap_graph.specs.Inside.{GraphInside, inside_code};

    ghost Value = { GraphInside };

    ghost coded = { inside_code the_item.the_row.coded the_shelf.the_row.coded
        the_identifier.the_row.coded the_link.the_row.coded };

    ghost view = { λ d. d.graph.now };
}

impl<'a> Draft<'a> {
    /// It takes no memory.
    pub fn of(graph: &'a Graph) -> Draft<'a>
        ensures { result ≡ graph.now }
    {
        Draft { graph }
    }

    /// What holds of every view.
    pub fn is_view(&self)
        ensures { IsView (rows_next self.now) (key_at self.now.names) (links_next self.now) }
    {
        self.graph.next_is_view();
    }
}

impl<'a> View for Draft<'a> {
    ghost rows = { λ d. rows_by (list_at list_next) d.shelves };

    ghost id_at = { λ d. key_at d.names };

    ghost links = { λ d. links_at list_next d.links };

    fn number(&self, id: &Identifier) -> Option<u64> {
        self.graph.next_number(id)
    }

    fn identifier(&self, number: u64) -> Option<&Identifier> {
        self.graph.key_of(number)
    }

    fn stored_at(&self, item: &Item) -> &[Row] {
        self.graph.next_at(item)
    }

    fn link_count(&self, number: u64) -> u64 {
        self.graph.next_count(number)
    }

    fn link_at<L: Ledger>(&self, number: u64, i: u64, steps: &mut Steps<L>) -> LinkSeen {
        steps.tick();
        self.graph.next_link(number, i)
    }

    fn link_stored(&self, seen: LinkSeen) -> &[Row] {
        self.graph.next_stored(seen)
    }
}
