//! The limit of a queue.
ghost use Rattle.std.specs.Prelude.{◌≡◌};
ghost use Rattle.ifmap_session.specs.Sessions.{limit_of};

use ifmap_forms::values::{GREATEST_LIMIT, LEAST_LIMIT};

/// What the size of a session's queue may be in bytes, as `Sessions::queue_size` counts them, where
/// a client asks for so many: no fewer than 10,000 and no more than 5,000,000, and 5,000,000 where
/// it asks for none.
pub fn limit_of(asked: Option<u32>) -> u32
    ensures { result ≡ limit_of asked }
{
    match asked {
        Some(asked) => asked.min(GREATEST_LIMIT).max(LEAST_LIMIT),
        None => GREATEST_LIMIT,
    }
}
