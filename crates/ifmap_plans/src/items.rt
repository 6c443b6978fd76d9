//! The items that carry attachments, in their order.
ghost use Rattle.std.specs.Prelude.{◌≡◌, ◌+◌, IfNone, IfSome, option_copied};
ghost use Rattle.ifmap_ident.specs.Items.{IsCanonItem};
ghost use Rattle.ifmap_plans.specs.After.{IsNextItem, NoItem};

use ifmap_ident::Item;
use ifmap_steps::Steps;
use ifmap_view::View;
use std::sync::ledger::Ledger;

/// A view that hands out the items that carry attachments.
pub trait Items: View {
    /// The least item above one, or of all, that carries an attachment; `None` exactly where no item
    /// above it does. Each call is one step. It takes no memory.
    fn item_after<L: Ledger>(&self, item: Option<&Item>, steps: &mut Steps<L>) -> Option<&Item>
        ensures found { IfSome result (λ found.
            IsNextItem (Self.rows self.now) (option_copied item.entry) found.now) }
        ensures canon { IfSome result (λ found. IsCanonItem found.now) }
        ensures none { IfNone result (NoItem (Self.rows self.now) (option_copied item.entry)) }
        ensures step { steps.new ≡ steps.old + 1 };
}
