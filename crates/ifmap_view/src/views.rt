//! What a search sees of a graph.
ghost use Rattle.std.specs.Prelude.{◌≡◌, ℕ, ◌+◌, ◌<◌, List, Option, Some, IfSome, Contains, length, slice_get, option_copied};
ghost use Rattle.ifmap_view.specs.declared.attachments.Attachment.{Attachment};
ghost use Rattle.ifmap_view.specs.Rows.{stored_on, stored_linked};
ghost use Rattle.ifmap_view.specs.Views.{IsView};

use crate::rows::Row;
use ifmap_ident::{Identifier, Item};
use ifmap_steps::Steps;
use std::sync::ledger::Ledger;

/// A link that a number has: its other end, and where what is stored on it is kept.
#[derive(Clone, Copy, Debug, PartialEq, Eq)]
pub struct LinkSeen {
    pub other: u64,
    pub at: u64,
}

/// Attachments in order, numbers for identifiers, and the links of each number. No call takes memory.
pub trait View {
    ghost use Rattle.ifmap_ident.specs.declared.identifiers.Identifier.{Identifier};
    ghost use Rattle.ifmap_view.specs.declared.attachments.Attachment.{Attachment};
    ghost use Rattle.ifmap_view.specs.declared.views.LinkSeen.{LinkSeen};

    /// The attachments, in their order.
    ghost rows: { Self → List Attachment };

    /// The identifier of a number, where it is live.
    ghost id_at: { Self → ℕ → Option Identifier };

    /// The links of a number, by their places.
    ghost links: { Self → ℕ → List LinkSeen };

    /// The number of an identifier, where it is live. Its clause `whole` is what holds of every view.
    fn number(&self, id: &Identifier) -> Option<u64>
        ensures found { IfSome result (λ v. id_at self.now v ≡ Some id.now) }
        ensures only { (v : ℕ) → id_at self.now v ≡ Some id.now → result ≡ Some v }
        ensures whole { IsView (rows self.now) (id_at self.now) (links self.now) };

    /// The identifier of a number, where it is live.
    fn identifier(&self, number: u64) -> Option<&Identifier>
        ensures { option_copied result ≡ id_at self.now number };

    /// What is stored on an item, in order.
    fn stored_at(&self, item: &Item) -> &[Row]
        ensures { result.now ≡ stored_on item.now (rows self.now) };

    /// How many links a number has.
    fn link_count(&self, number: u64) -> u64
        ensures { result ≡ length (links self.now number) };

    /// The link of a number at a place. It is the only call that hands out a link, and one step.
    fn link_at<L: Ledger>(&self, number: u64, i: u64, steps: &mut Steps<L>) -> LinkSeen
        requires { i < length (links self.now number) }
        ensures link { slice_get (links self.now number) i ≡ Some result }
        ensures step { steps.new ≡ steps.old + 1 };

    /// What is stored on a link that this view handed out, in order.
    fn link_stored(&self, seen: LinkSeen) -> &[Row]
        requires { (v : ℕ) × Contains (links self.now v) seen }
        ensures { (v : ℕ) → Contains (links self.now v) seen
            → result.now ≡ stored_linked (id_at self.now v) (id_at self.now seen.other)
            (rows self.now) };
}
