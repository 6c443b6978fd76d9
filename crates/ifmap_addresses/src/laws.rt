//! Laws on addresses and their texts: functions that do nothing, whose contracts are the laws.
ghost use Rattle.std.specs.Prelude.{◌≡◌, ◌^◌, ℕ, List};
ghost use Rattle.ifmap_lemmas.specs.Deciding.{Decided};
ghost use Rattle.ifmap_addresses.specs.IpV4.{IsIpV4, ip_v4_text};
ghost use Rattle.ifmap_addresses.specs.IpV6.{IsIpV6, ip_v6_text};
ghost use Rattle.ifmap_addresses.specs.Values.{AreBelow};
ghost use Rattle.ifmap_addresses.specs.MacAddresses.{IsMacAddress, mac_address_text};

/// A text is at most one address of each kind.
pub fn texts_are_one_address()
    ensures ip_v4 { (text one other : List ℕ) →
        IsIpV4 text one → IsIpV4 text other → one ≡ other }
    ensures ip_v6 { (text one other : List ℕ) →
        IsIpV6 text one → IsIpV6 text other → one ≡ other }
    ensures mac_address { (text one other : List ℕ) →
        IsMacAddress text one → IsMacAddress text other → one ≡ other }
{}

/// A text is an address of a kind, or it is none.
pub fn texts_are_addresses_or_none()
    ensures ip_v4 { (text : List ℕ) → Decided ((value : List ℕ) × IsIpV4 text value) }
    ensures ip_v6 { (text : List ℕ) → Decided ((value : List ℕ) × IsIpV6 text value) }
    ensures mac_address { (text : List ℕ) → Decided ((value : List ℕ) × IsMacAddress text value) }
{}

/// An IPv4 address is four bytes, an IPv6 address eight numbers of sixteen bits, a MAC address six
/// bytes.
pub fn addresses_have_one_size()
    ensures ip_v4 { (text value : List ℕ) → IsIpV4 text value → AreBelow (2 ^ 8) 4 value }
    ensures ip_v6 { (text value : List ℕ) → IsIpV6 text value → AreBelow (2 ^ 16) 8 value }
    ensures mac_address { (text value : List ℕ) →
        IsMacAddress text value → AreBelow (2 ^ 8) 6 value }
{}

/// The canonical text of an address is that address.
pub fn canonical_texts_are_addresses()
    ensures ip_v4 { (value : List ℕ) → AreBelow (2 ^ 8) 4 value → IsIpV4 (ip_v4_text value) value }
    ensures ip_v6 { (value : List ℕ) →
        AreBelow (2 ^ 16) 8 value → IsIpV6 (ip_v6_text value) value }
    ensures mac_address { (value : List ℕ) →
        AreBelow (2 ^ 8) 6 value → IsMacAddress (mac_address_text value) value }
{}
