//! Laws of carrying on, and of the book that lies in its slot.
ghost use Rattle.std.specs.Prelude.{◌≡◌, ◌<◌, ℕ, Option};
ghost use Rattle.atomic_table.specs.Table.{State};
ghost use Rattle.ifmap_hall.specs.Books.{IsBook, end_of_book, sight_of};
ghost use Rattle.ifmap_hall.specs.Rule.{AreSharedOut, Keeping, Sits};
ghost use Rattle.ifmap_hall.specs.Sights.{Sight, CarriesOn};
ghost use Rattle.ifmap_hall.specs.Views.{sight_by};

use crate::book::Book;
use crate::machine::Machine;
use crate::view::{SeatView, Terms};

/// What is seen carries on itself.
pub fn carries_itself<M: Machine>()
    ensures { (p : Sight M M.Event) → CarriesOn M.next p p }
{}

/// What carries on q, which carries on p, carries on p.
pub fn carries_through<M: Machine>()
    ensures { (p q r : Sight M M.Event)
        → CarriesOn M.next p q → CarriesOn M.next q r → CarriesOn M.next p r }
{}

/// Whenever the book of a hall lies in its slot, it is in order, it carries on what each pass that is
/// not spent has seen, and each of its places stands in the list of just one pass.
pub fn the_book_lies_in_order<M: Machine>()
    ensures book { (terms : Terms M)
        (t : State (Option (Book M M.Event M.Reply)) (SeatView M M.Event M.Reply))
        (b : Book M M.Event M.Reply) → Keeping M.next M.weight_of terms t b
        → IsBook M.next M.weight_of b }
    ensures carries { (terms : Terms M)
        (t : State (Option (Book M M.Event M.Reply)) (SeatView M M.Event M.Reply))
        (b : Book M M.Event M.Reply) → Keeping M.next M.weight_of terms t b
        → (i : ℕ) (s : SeatView M M.Event M.Reply) → Sits t.views i s → 0 < s.parts
        → CarriesOn M.next (sight_by M.next s.view) (sight_of b) }
    ensures places { (terms : Terms M)
        (t : State (Option (Book M M.Event M.Reply)) (SeatView M M.Event M.Reply))
        (b : Book M M.Event M.Reply) → Keeping M.next M.weight_of terms t b
        → AreSharedOut t.views (end_of_book b) }
{}
