//! Ways back: what all subscriptions took over of a change, to be taken back or left as it is.
ghost use Rattle.std.specs.Prelude.{◌≤◌, List, Option, Some, length, slice_get};
ghost use Rattle.ifmap_delta.specs.declared.subscriptions.Subscription.{Subscription};
ghost use Rattle.ifmap_standing.specs.Kept.{AtEach, KeepsSame, StaysRelated};
ghost use Rattle.ifmap_standing.specs.Ways.{IsWayGivenUp, LeadBack, LeadsBackWhere, Way};
ghost use Rattle.ifmap_standing.specs.declared.standing.Standing.{Standing};

use crate::standing::Standing;
use ifmap_delta::{SubUndo, Subscription};
use std::marker::Model;

/// The ways back of a change, one for each subscription in order; none where it was skipped. Contracts
/// see the marks and the size that were there before.
#[derive(Drop)]
pub struct Ways {
    pub(crate) of_each: Vec<Option<SubUndo>>,
}

impl Model for Ways {
    ghost use Rattle.std.specs.Prelude.{List, Option};
    ghost use Rattle.ifmap_standing.specs.Ways.{Way};

    ghost Value = { List (Option Way) };

    ghost view = { λ w. w.of_each.items };
}

/// Takes a change back that subscriptions took over, the last first: each keeps again what it kept
/// before. The ways of changes before it lead back still. It takes no memory.
///
/// Numbers of the change that had no mark may have a row without one afterwards.
pub fn take_change_back(standing: &mut [Standing], ways: Ways)
    requires { (before : List Standing) × LeadBack before ways standing.old }
    ensures { (before : List Standing) → LeadBack before ways standing.old
        → AtEach (λ _. StaysRelated KeepsSame) before standing.new }
{
    let mut left = ways.of_each;
    while let Some(way) = left.pop() {
        let at = left.len();
        take_back_one(&mut standing[at].subscription, way);
    }
}

// A subscription takes its change back, where it has one.
pub(crate) fn take_back_one(subscription: &mut Subscription, way: Option<SubUndo>)
    requires { (before : Subscription) × LeadsBackWhere (Some way) before subscription.old }
    ensures { (before : Subscription) → LeadsBackWhere (Some way) before subscription.old
        → KeepsSame before subscription.new }
{
    if let Some(undo) = way {
        let _ = subscription.undo(undo);
    }
}

/// Leaves a change as it is, for good: each keeps what it keeps, and no number of the change has a row
/// without a mark any more. It takes no memory.
pub fn settle(standing: &mut [Standing], ways: Ways)
    requires { length ways ≤ length standing.old }
    ensures { AtEach (λ i. StaysRelated (IsWayGivenUp (slice_get ways i))) standing.old
        standing.new }
{
    let mut left = ways.of_each;
    while let Some(way) = left.pop() {
        let at = left.len();
        settle_one(&mut standing[at].subscription, way);
    }
}

// A subscription leaves its change as it is, where it has one.
fn settle_one(subscription: &mut Subscription, way: Option<SubUndo>)
    ensures { IsWayGivenUp (Some way) subscription.old subscription.new }
{
    if let Some(undo) = way {
        subscription.settle(undo);
    }
}
