//! From which identifiers no walk goes on.
ghost use Rattle.std.specs.Prelude.{◌≡◌};
ghost use Rattle.ifmap_fresh.specs.Matching.{is_terminal, same_kind};

use ifmap_elem::Many;
use ifmap_ident::{Identifier, Kind};

// Whether the identifier is of one of these kinds.
pub(crate) fn is_terminal(kinds: &Many<Kind>, id: &Identifier) -> bool
    ensures { result ≡ is_terminal kinds.now id.now }
{
    let own = id.kind();
    kinds.iter().any(|kind| is_same(*kind, own))
}

fn is_same(one: Kind, other: Kind) -> bool
    ensures { result ≡ same_kind one other }
{
    match (one, other) {
        (Kind::AccessRequest, Kind::AccessRequest) => true,
        (Kind::Device, Kind::Device) => true,
        (Kind::Identity, Kind::Identity) => true,
        (Kind::IpAddress, Kind::IpAddress) => true,
        (Kind::MacAddress, Kind::MacAddress) => true,
        _ => false,
    }
}
