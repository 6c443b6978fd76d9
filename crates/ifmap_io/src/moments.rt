//! Moments, in seconds from 1970-01-01T00:00:00Z, without leap seconds.
ghost use Rattle.std.specs.Prelude.{◌≡◌, ◌≤◌, min};
ghost use Rattle.std.specs.Option.{SomeIff};
ghost use Rattle.ifmap_io.specs.Calendar.{Civil, IsCivil, civil_text, last_moment, moment_text, second_number};

use crate::calendar::{civil_at, text_of};
use std::marker::Model;

/// A moment, which contracts see as its number of seconds: 0 to 253402300799, the last second of
/// the year 9999.
#[derive(Clone, Copy, Debug, PartialEq, Eq, PartialOrd, Ord)]
pub struct Moment(u64);

impl Model for Moment {
    ghost use Rattle.std.specs.Prelude.{ℕ, ◌≤◌};
    ghost use Rattle.ifmap_io.specs.Calendar.{last_moment};

    ghost Value = { ℕ };

    ghost view = { λ moment. moment.0 };

    ghost invariant = { λ moment. moment.0 ≤ last_moment };

    ghost inverse = { λ seconds. record { 0 = seconds } };
}

impl Moment {
    /// The greatest moment, in seconds.
    pub const LAST: u64 = 253_402_300_799;

    /// The moment of that many seconds; None exactly above 253402300799.
    pub fn new(seconds: u64) -> Option<Moment>
        ensures { SomeIff result (seconds ≤ last_moment) seconds }
    {
        if seconds <= Moment::LAST {
            Some(Moment(seconds))
        } else {
            None
        }
    }

    // The moment of that many seconds, or the greatest.
    pub(crate) fn clamp_seconds(seconds: u64) -> Moment
        ensures { result ≡ min seconds last_moment }
    {
        Moment(seconds.min(Moment::LAST))
    }

    /// Its seconds, at most 253402300799.
    pub fn seconds(&self) -> u64
        ensures value { result ≡ self.now }
        ensures bound { result ≤ last_moment }
    {
        self.0
    }

    /// Its date and time of day in UTC, as `YYYY-MM-DDThh:mm:ssZ` (RFC 3339).
    pub fn text(&self) -> [u8; 20]
        ensures value { result ≡ moment_text self.now }
        ensures shown { (c : Civil) × IsCivil c × (second_number c ≡ self.now)
            × (result ≡ civil_text c) }
        ensures only { (c : Civil) → IsCivil c → second_number c ≡ self.now
            → result ≡ civil_text c }
    {
        text_of(civil_at(self.0))
    }
}
