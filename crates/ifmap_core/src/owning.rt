//! Whose session a request names.
ghost use Rattle.std.specs.Prelude.{◌≡◌, IfSome, option_map};
ghost use Rattle.ifmap_subscribes.specs.ifmap_changes.Between.{sessions_left};
ghost use Rattle.ifmap_core.specs.Completions.{IsOwner};
ghost use Rattle.ifmap_session.specs.Sessions.{IsLive, session_of_client};

use ifmap_elem::{Equals, Text};
use ifmap_session::Sessions;
use ifmap_subscribes::Asking;

/// Whose the session is that a request names.
#[derive(Drop)]
pub enum Owner {
    /// The client's own, with this serial.
    Own(u64),
    /// Another client's.
    Another,
    /// Nobody's: no live session has the id.
    Nobody,
}

/// Whose the session is that is left under an id.
pub fn owner_of(sessions: &Sessions, asking: &Asking, id: &Text) -> Owner
    ensures { IsOwner (sessions_left asking.now sessions.now) id.now asking.now.client result }
{
    sessions.is_table();
    let Some((serial, owner)) = sessions.owner(id) else {
        return Owner::Nobody;
    };
    if asking.ended.contains(&serial) {
        return Owner::Nobody;
    }
    if owner.equals(asking.client) {
        Owner::Own(serial)
    } else {
        Owner::Another
    }
}

/// The serial of the session that is left of the client's.
pub fn former_of(sessions: &Sessions, asking: &Asking) -> Option<u64>
    ensures serial { result ≡ option_map (λ s. s.serial)
        (session_of_client asking.now.client (sessions_left asking.now sessions.now)) }
    ensures live { IfSome result (λ n. IsLive n (sessions_left asking.now sessions.now)) }
{
    sessions.is_table();
    let serial = sessions.of_client(asking.client)?;
    if asking.ended.contains(&serial) {
        return None;
    }
    Some(serial)
}
