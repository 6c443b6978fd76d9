//! Which subscriptions stand no longer, by their places.
ghost use Rattle.std.specs.Prelude.{◌≡◌, length};
ghost use Rattle.std.specs.BTreeMap.{get};
ghost use Rattle.std.specs.Ordering.{nat_cmp};
ghost use Rattle.ifmap_tellings.specs.Tellings.{flags_since, flags_of_alone, is_alone};

use crate::tellings::Telling;
use ifmap_standing::{News, Standing};
use std::collections::BTreeMap;

// Subscriptions whose results are too big now are gone.
pub(crate) fn flag_too_big(news: &[News], gone: &mut Vec<bool>)
    requires { length gone.old.items ≡ length news.now }
    ensures { gone.new.items ≡ flags_since gone.old.items news.now }
{
    for at in 0..news.len() {
        if news[at].is_too_big {
            gone[at] = true;
        }
    }
}

// The subscriptions of a session that is told one error in place of all are gone.
pub(crate) fn flag_alone(
    standing: &[Standing],
    tellings: &BTreeMap<u64, Telling>,
    gone: &mut Vec<bool>,
)
    requires { length gone.old.items ≡ length standing.now }
    ensures { gone.new.items ≡ flags_of_alone tellings.now gone.old.items standing.now }
{
    for at in 0..standing.len() {
        if is_alone(tellings, standing[at].serial) {
            gone[at] = true;
        }
    }
}

// Whether a session is told one error in place of all.
fn is_alone(tellings: &BTreeMap<u64, Telling>, serial: u64) -> bool
    ensures { result ≡ is_alone (get nat_cmp tellings.now serial) }
{
    match tellings.get(&serial) {
        Some(Telling::Alone(_)) => true,
        Some(Telling::After { .. }) => false,
        None => false,
    }
}
