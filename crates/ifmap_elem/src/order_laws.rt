//! Laws on the order of attributes: functions that do nothing, whose contracts are the laws.
ghost use Rattle.std.specs.Prelude.{◌≡◌, ℕ, List};
ghost use Rattle.std.specs.List.Sorted.{IsPermutation, IsSorted};
ghost use Rattle.ifmap_elem.specs.declared.elements.Attribute.{Attribute};
ghost use Rattle.ifmap_elem.specs.declared.elements.Element.{Element};
ghost use Rattle.ifmap_elem.specs.Arranged.{IsSame, attribute_order, sort_attributes};
ghost use Rattle.ifmap_elem.specs.Canonical.{canonical_bytes, written_bytes};

/// The attributes in order are the attributes, and they rise.
pub fn sorting_orders_attributes()
    ensures permutation { (attributes : List Attribute) →
        IsPermutation attributes (sort_attributes attributes) }
    ensures rising { (attributes : List Attribute) →
        IsSorted attribute_order (sort_attributes attributes) }
{}

/// Attributes that are permutations of each other are in one order.
pub fn permutations_have_one_order()
    ensures { (one other : List Attribute) → IsPermutation one other →
        sort_attributes one ≡ sort_attributes other }
{}

/// Elements that are the same but for the order of attributes are printed alike.
pub fn same_elements_are_printed_alike()
    ensures canonical { (one other : Element) → IsSame one other →
        canonical_bytes one ≡ canonical_bytes other }
    ensures written { (spaces : List (List ℕ)) (one other : Element) → IsSame one other →
        written_bytes one spaces ≡ written_bytes other spaces }
{}
