//! What changes the graph: what is published, and what goes with publishers and sessions.
ghost use Rattle.std.specs.Prelude.{◌≡◌, ◌∷◌, ℕ, [], IfOk, OnErr, OnOk};
ghost use Rattle.std.specs.List.{AllByRecursion};
ghost use Rattle.ifmap_changes.specs.Between.{AreChanged, AreKept, HasNoSubscriptions, IsSoundSoFar, IsSteady, state_now};
ghost use Rattle.ifmap_changes.specs.Bounds.{IsEndedWithin, IsRetractedWithin, IsTakenWithin, IsToldWithin};
ghost use Rattle.ifmap_changes.specs.Changes.{CanSettle, HasWaysBack, TakesAway, TakesAwayOrKeeps, take_session};
ghost use Rattle.ifmap_tellings.specs.ifmap_machine.Telling.{overflow, tell};
ghost use Rattle.ifmap_graph.specs.ifmap_plans.Plans.{AreWhole};
ghost use Rattle.ifmap_tellings.specs.ifmap_publish.Apply.{Authorship, apply};
ghost use Rattle.ifmap_tellings.specs.ifmap_publish.Notes.{notes_of};
ghost use Rattle.ifmap_tellings.specs.ifmap_requests.Fit.{IsFitOp};
ghost use Rattle.ifmap_graph.specs.Seen.{rows_now};

use crate::asking::Asking;
use crate::changes::{Made, flag_session, make_change, make_kept};
use crate::parts::Parts;
use ifmap_elem::Many;
use ifmap_graph::{Graph, Plan};
use ifmap_steps::Steps;
use ifmap_tellings::tellings::Pending;
use ifmap_tellings::{
    Author, PublishOp, Who, plan, publishing_keeps_graphs, retract, retracting_keeps_graphs,
};
use std::alloc::{AllocError as NoMemory, Global};
use std::sync::ledger::Ledger;

/// What is published, and the serial of the session in which it is.
#[derive(Drop)]
pub struct Publication<'a> {
    pub serial: u64,
    pub ops: &'a Many<PublishOp>,
}

/// Publishes in a session what the operations say, all or nothing.
pub fn publish<L: Ledger>(
    alloc: Global,
    parts: &mut Parts,
    pending: &mut Pending,
    asking: &Asking,
    publication: &Publication<'_>,
    steps: &mut Steps<L>,
) -> Result<(), NoMemory>
    requires steady { IsSteady parts.old.graph parts.old.standing.items }
    requires ready { IsSoundSoFar asking.now parts.old pending.old }
    requires fit { AllByRecursion IsFitOp publication.now.ops.now }
    ensures told { let by : Authorship = record {
      client = asking.now.client;
      serial = publication.now.serial;
      moment = asking.now.moment;
    } in OnOk result (state_now asking.now parts.new pending.new
        ≡ overflow (tell (apply (rows_now parts.old.graph) by publication.now.ops.now)
        (notes_of by publication.now.ops.now) (state_now asking.now parts.old pending.old))) }
    ensures changed { OnOk result (AreChanged asking.now parts.old parts.new pending.new) }
    ensures kept { OnErr result (AreKept parts.old parts.new) }

    // Also at want of memory.
    ensures steps { let by : Authorship = record {
      client = asking.now.client;
      serial = publication.now.serial;
      moment = asking.now.moment;
    } in IsToldWithin (apply (rows_now parts.old.graph) by publication.now.ops.now)
        (state_now asking.now parts.old pending.old) steps.old steps.new }
{
    publishing_keeps_graphs();
    parts.graph.is_view();
    let author = Author {
        client: asking.client,
        serial: publication.serial,
        moment: asking.moment,
    };
    let plan = plan(alloc, &parts.graph, publication.ops, &author)?;
    make_change(alloc, parts, pending, asking, plan, steps)
}

/// Takes away what is of these.
pub fn take_away<L: Ledger>(
    alloc: Global,
    parts: &mut Parts,
    pending: &mut Pending,
    asking: &Asking,
    who: &Who,
    steps: &mut Steps<L>,
) -> Result<(), NoMemory>
    requires steady { IsSteady parts.old.graph parts.old.standing.items }
    requires ready { IsSoundSoFar asking.now parts.old pending.old }
    ensures takes { TakesAwayOrKeeps result who.now asking.now parts.old pending.old parts.new
        pending.new }
    ensures changed { OnOk result (AreChanged asking.now parts.old parts.new pending.new) }
    ensures bare { OnOk result ((n : ℕ) → HasNoSubscriptions n parts.old pending.old
        → HasNoSubscriptions n parts.new pending.new) }

    // Also at want of memory.
    ensures steps { IsTakenWithin who.now (state_now asking.now parts.old pending.old) steps.old
        steps.new }
{
    let plan = plan_retraction(alloc, &parts.graph, who, steps)?;
    make_change(alloc, parts, pending, asking, plan, steps)
}

// The plan that takes away what is of these.
fn plan_retraction<L: Ledger>(
    alloc: Global,
    graph: &Graph,
    who: &Who,
    steps: &mut Steps<L>,
) -> Result<Plan, NoMemory>
    requires { AreWhole (rows_now graph.now) }
    ensures plan { IfOk result (TakesAway who.now (rows_now graph.now)) }
    ensures steps { IsRetractedWithin (rows_now graph.now) steps.old steps.new }
{
    retracting_keeps_graphs();
    graph.is_view();
    let plan = retract(alloc, graph, who, steps)?;
    Ok(plan)
}

/// Takes away what was to stay as long as a session, whose own subscriptions are not told.
pub fn take_away_one<L: Ledger>(
    alloc: Global,
    parts: &mut Parts,
    pending: &mut Pending,
    asking: &Asking,
    serial: u64,
    steps: &mut Steps<L>,
) -> Result<(), NoMemory>
    requires steady { IsSteady parts.old.graph parts.old.standing.items }
    requires ready { IsSoundSoFar asking.now parts.old pending.old }
    ensures told { OnOk result (state_now asking.now parts.new pending.new
        ≡ take_session serial (state_now asking.now parts.old pending.old)) }
    ensures changed { OnOk result (AreChanged asking.now parts.old parts.new pending.new) }
    ensures bare { OnOk result (HasNoSubscriptions serial parts.new pending.new) }
    ensures kept { OnErr result (AreKept parts.old parts.new) }

    // Also at want of memory.
    ensures steps { IsEndedWithin (serial ∷ []) (state_now asking.now parts.old pending.old)
        steps.old steps.new }
{
    let mut serials = Vec::with_capacity(alloc, 1)?;
    serials.push(serial)?;
    let who = Who::Sessions(Many(serials));
    flag_session(&parts.standing, pending, serial);
    take_away(alloc, parts, pending, asking, &who, steps)
}

/// Takes away what is of these, so that it can be taken back.
pub fn take_away_kept<L: Ledger>(
    alloc: Global,
    parts: &mut Parts,
    pending: &mut Pending,
    asking: &Asking,
    who: &Who,
    steps: &mut Steps<L>,
) -> Result<Made, NoMemory>
    requires steady { IsSteady parts.old.graph parts.old.standing.items }
    requires ready { IsSoundSoFar asking.now parts.old pending.old }
    ensures takes { TakesAwayOrKeeps result who.now asking.now parts.old pending.old parts.new
        pending.new }
    ensures ways { IfOk result (HasWaysBack asking.now parts.old parts.new pending.new) }
    ensures settle { IfOk result (λ made. CanSettle made parts.new) }

    // Also at want of memory.
    ensures steps { IsTakenWithin who.now (state_now asking.now parts.old pending.old) steps.old
        steps.new }
{
    let plan = plan_retraction(alloc, &parts.graph, who, steps)?;
    make_kept(alloc, parts, pending, asking, plan, steps)
}
