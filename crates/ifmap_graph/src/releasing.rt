//! Items are waited for no longer. No call takes memory.
ghost use Rattle.std.specs.Prelude.{◌<◌, ◌∷◌, List, []};
ghost use Rattle.slab.specs.Slab.{get};
ghost use Rattle.ifmap_ident.specs.declared.items.Item.{Item};
ghost use Rattle.ifmap_view.specs.declared.views.LinkSeen.{LinkSeen};
ghost use Rattle.ifmap_graph.specs.Drafted.{AreBare};
ghost use Rattle.ifmap_graph.specs.Inside.{IsInside};
ghost use Rattle.ifmap_graph.specs.Out.{items_changed};
ghost use Rattle.ifmap_graph.specs.Releasing.{AreFilled, IsLess};
ghost use Rattle.ifmap_graph.specs.Sides.{Sides};
ghost use Rattle.ifmap_graph.specs.Waits.{AreWaited, WaitsFor, waits_on};

use crate::placing::remove_shelf;
use crate::shelves::Shelves;
use ifmap_ident::{Identifier, Item};
use ifmap_plans::ItemChange;
use ifmap_pool::Pool;

// One item is waited for once less, and its shelf goes where it is empty and not waited for.
fn release_item(names: &mut Pool<Identifier>, shelves: &mut Shelves, item: &Item)
    requires inside { (links : List (Sides LinkSeen)) × IsInside names.old (get shelves.old.slots)
        shelves.old.places.entries links }
    requires bare { AreBare shelves.old }
    requires waited { 0 < waits_on shelves.old item.now }
    ensures less { IsLess names.old names.new shelves.old shelves.new }
    ensures waits { WaitsFor (item.now ∷ []) shelves.new shelves.old }
    ensures filled { AreFilled shelves.old → AreFilled shelves.new }
{
    if shelves.unwait(item) > 0 {
        return;
    }
    if !shelves.rows_at(item).is_empty() {
        return;
    }
    remove_shelf(names, shelves, item);
}

// So are the items of changes, one after the other.
pub(crate) fn release_items(
    names: &mut Pool<Identifier>,
    shelves: &mut Shelves,
    changes: &[ItemChange],
)
    requires inside { (links : List (Sides LinkSeen)) × IsInside names.old (get shelves.old.slots)
        shelves.old.places.entries links }
    requires bare { AreBare shelves.old }
    requires waits { AreWaited (items_changed changes.now) (waits_on shelves.old) }
    ensures less { IsLess names.old names.new shelves.old shelves.new }
    ensures waits { WaitsFor (items_changed changes.now) shelves.new shelves.old }
    ensures filled { AreFilled shelves.old → AreFilled shelves.new }
{
    for change in changes {
        release_item(names, shelves, &change.item);
    }
}
