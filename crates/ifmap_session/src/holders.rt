//! Who has a session.
ghost use Rattle.std.specs.Prelude.{◌≡◌, IfErr};
ghost use Rattle.std.specs.List.Sorted.{IsStrictlySortedBy};
ghost use Rattle.ifmap_session.specs.Places.{IsPlaceFor, IsPlaceOf};
ghost use Rattle.ifmap_session.specs.Rows.{client_order};
ghost use Rattle.ifmap_session.specs.Sessions.{is_same_text};

use ifmap_meta::ClientName;

/// The serial of the session that a client has.
#[derive(Drop)]
pub struct Holder {
    pub client: ClientName,
    pub serial: u64,
}

/// Where the holder of that client stands, or is to stand.
pub fn place_of_client(holders: &[Holder], client: &ClientName) -> Result<usize, usize>
    requires { IsStrictlySortedBy client_order holders.now }
    ensures place { IsPlaceOf (λ h. is_same_text h.client client.now) holders.now result }
    ensures gap { IfErr result (IsPlaceFor client.now holders.now) }
{
    holders.binary_search_by(|h| h.client.cmp(client))
}
