//! Views that find what is stored under a key.
ghost use Rattle.std.specs.Prelude.{IfNone, IfSome, Contains};
ghost use Rattle.std.specs.List.{AllByRecursion};
ghost use Rattle.ifmap_meta.specs.Keys.{HaveOneKey};
ghost use Rattle.ifmap_plans.specs.ifmap_view.Rows.{stored_on};

use ifmap_ident::Item;
use ifmap_plans::{Row, View};

/// A view that finds what is stored under a key.
pub trait Keyed: View {
    /// The row on an item that has the key of this one, where there is one. It takes no memory.
    fn row_with_key(&self, item: &Item, row: &Row) -> Option<&Row>
        ensures found { IfSome result (λ found.
            Contains (stored_on item.now (Self.rows self.now)) found.now
            × HaveOneKey row.now found.now) }
        ensures none { IfNone result (AllByRecursion (λ s. HaveOneKey row.now s → ⊥)
            (stored_on item.now (Self.rows self.now))) };
}
