//! How a subscription starts, under a name.
ghost use Rattle.std.specs.Prelude.{◌≡◌, ◌<◌, ◌++◌, ℕ, List, None, Some, IfOk, IfSome, OnErr, option_to_list};
ghost use Rattle.std.specs.List.{AllByRecursion};
ghost use Rattle.ifmap_changes.specs.Between.{IsSteady, seen_now};
ghost use Rattle.ifmap_changes.specs.ifmap_delta.SeenViews.{IsUpToDate};
ghost use Rattle.ifmap_changes.specs.ifmap_graph.Seen.{HasFewOwn, rows_now};
ghost use Rattle.ifmap_ident.specs.declared.codes.Code.TheVariants.{SearchResultsTooBig};
ghost use Rattle.ifmap_changes.specs.ifmap_machine.Telling.{limit_note};
ghost use Rattle.ifmap_changes.specs.ifmap_pool.Holdings.{holds_at, key_at};
ghost use Rattle.ifmap_changes.specs.ifmap_requests.Fit.{IsFitSearch};
ghost use Rattle.ifmap_search.specs.declared.results.PollItem.TheVariants as the_item;
ghost use Rattle.ifmap_search.specs.Sizes.{entries_size};
ghost use Rattle.ifmap_changes.specs.ifmap_standing.declared.standing.Standing.{Standing};
ghost use Rattle.ifmap_subscribes.specs.Bounds.{IsWithinSpan};
ghost use Rattle.ifmap_subscribes.specs.Readying.{BeginsName, GraphHolds, IsHolding, IsReleased, IsSmall};

use crate::renamings::Renaming;
use ifmap_changes::{Graph, Standing, Subscribed, Subscription, View, subscribe, too_big_item};
use ifmap_elem::{Copied, Text};
use ifmap_ident::Identifier;
use ifmap_ident::laws::bytes_tell_identifiers_apart;
use ifmap_search::{Found, PollItem, SIZE_BESIDE_ENTRIES, Search};
use ifmap_steps::Steps;
use std::alloc::{AllocError as NoMemory, Global};
use std::sync::ledger::Ledger;

// A subscription that is to begin: the serial of its session, its name and its search.
#[derive(Drop)]
pub(crate) struct NewSubscription<'a> {
    pub(crate) serial: u64,
    pub(crate) name: &'a Text,
    pub(crate) search: &'a Search,
}

// A subscription of a session begins under a name, or is told that its result is too big. Where it
// stands, the number of its start is held for it; else none is.
pub(crate) fn begin_name<L: Ledger>(
    alloc: Global,
    graph: &mut Graph,
    wanted: &NewSubscription<'_>,
    steps: &mut Steps<L>,
) -> Result<Renaming, NoMemory>
    requires few { HasFewOwn graph.old }
    requires fit { IsFitSearch wanted.now.search.now }
    requires steady { (standing : List Standing) × IsSteady graph.old standing }
    ensures begins { IfOk result (BeginsName (rows_now graph.old) wanted.now.serial
        wanted.now.name.now wanted.now.search.now) }
    ensures kept { IfOk result (λ renaming. AllByRecursion
        (λ x. IsUpToDate (seen_now graph.new) x.subscription) (option_to_list renaming.standing)) }
    ensures steady { IfOk result (λ renaming. (standing : List Standing)
        → IsSteady graph.old standing
        → IsSteady graph.new (standing ++ option_to_list renaming.standing)) }
    ensures err { OnErr result ((standing : List Standing) → IsSteady graph.old standing
        → IsSteady graph.new standing) }
    ensures holds { GraphHolds graph.old graph.new }
    ensures steps { IsWithinSpan 4 (rows_now graph.old) wanted.now.search.now steps.old steps.new }
{
    let number = graph.hold(alloc, &wanted.search.start)?;
    match begin_at(alloc, graph, number, wanted, steps) {
        Ok(renaming) => {
            release_unused(graph, number, &wanted.search.start, &renaming);
            Ok(renaming)
        }
        Err(no_memory) => {
            release_held(graph, number, &wanted.search.start);
            Err(no_memory)
        }
    }
}

// A number that was held for a subscription is let go of, where none is to stand. It takes no memory.
fn release_unused(graph: &mut Graph, number: u64, start: &Identifier, renaming: &Renaming)
    requires { (standing : List Standing) × IsHolding graph.old standing number start.now }
    ensures unused { renaming.now.standing ≡ None → (standing : List Standing)
        → IsHolding graph.old standing number start.now → IsSteady graph.new standing }
    ensures used { IfSome renaming.now.standing (λ x. graph.new ≡ graph.old) }
    ensures stays { (v : ℕ) → (v ≡ number → 1 < holds_at graph.old.names v)
        → key_at graph.new.names v ≡ key_at graph.old.names v }
    ensures released { IsReleased graph.old graph.new }
{
    if renaming.standing.is_none() {
        release_held(graph, number, start);
    }
}

// A number that was held for a subscription is let go of. It takes no memory.
fn release_held(graph: &mut Graph, number: u64, start: &Identifier)
    requires { (standing : List Standing) × IsHolding graph.old standing number start.now }
    ensures steady { (standing : List Standing)
        → IsHolding graph.old standing number start.now → IsSteady graph.new standing }
    ensures stays { (v : ℕ) → (v ≡ number → 1 < holds_at graph.old.names v)
        → key_at graph.new.names v ≡ key_at graph.old.names v }
    ensures released { IsReleased graph.old graph.new }
{
    bytes_tell_identifiers_apart();
    // That no identifier has two numbers says that subscriptions which start there keep this one.
    let _same = graph.number(start);
    graph.release(number);
}

// A subscription begins whose start has that number.
fn begin_at<L: Ledger>(
    alloc: Global,
    graph: &Graph,
    number: u64,
    wanted: &NewSubscription<'_>,
    steps: &mut Steps<L>,
) -> Result<Renaming, NoMemory>
    requires fit { IsFitSearch wanted.now.search.now }
    requires start { key_at graph.now.names number ≡ Some wanted.now.search.now.start }
    ensures begins { IfOk result (BeginsName (rows_now graph.now) wanted.now.serial
        wanted.now.name.now wanted.now.search.now) }
    ensures kept { IfOk result (λ renaming. AllByRecursion
        (λ x. (x.subscription.search ≡ wanted.now.search.now)
        × (x.subscription.region.start ≡ number)
        × IsUpToDate (seen_now graph.now) x.subscription) (option_to_list renaming.standing)) }
    ensures steps { IsWithinSpan 4 (rows_now graph.now) wanted.now.search.now steps.old steps.new }
{
    graph.is_view();
    let searched = wanted.search.copy(alloc)?;
    match subscribe(alloc, graph, number, searched, steps)? {
        Subscribed::Kept {
            subscription,
            found,
        } => keep_subscription(alloc, wanted.serial, wanted.name, subscription, found),
        Subscribed::TooBig { size } => refuse_name(
            alloc,
            wanted.name,
            size,
            wanted.search.max_size,
        ),
    }
}

// A subscription stands under a name, and is told what it finds. A result of nearly 2^64 bytes is more
// than memory holds.
fn keep_subscription(
    alloc: Global,
    serial: u64,
    name: &Text,
    subscription: Subscription,
    found: Found,
) -> Result<Renaming, NoMemory>
    requires { found.size ≡ entries_size found.entries }
    ensures kept { IfOk result (λ renaming. renaming ≡ record {
      name = name.now;
      item = Some (the_item.Search name.now found.entries);
      standing = Some (record {
        serial = serial;
        name = name.now;
        subscription = subscription;
      });
    }) }
    ensures small { IfOk result IsSmall }
{
    if u64::MAX - SIZE_BESIDE_ENTRIES <= found.size {
        return Err(NoMemory);
    }
    Ok(Renaming {
        name: name.copy(alloc)?,
        item: Some(PollItem::Search {
            name: name.copy(alloc)?,
            entries: found.entries,
        }),
        standing: Some(Standing {
            serial,
            name: name.copy(alloc)?,
            subscription,
        }),
    })
}

// No subscription stands under a name: its result is too big.
fn refuse_name(alloc: Global, name: &Text, size: u64, limit: u64) -> Result<Renaming, NoMemory>
    ensures refused { IfOk result (λ renaming. renaming ≡ record {
      name = name.now;
      item = Some (the_item.Error (Some name.now) SearchResultsTooBig (limit_note size limit));
      standing = None;
    }) }
    ensures small { IfOk result IsSmall }
{
    Ok(Renaming {
        name: name.copy(alloc)?,
        item: Some(too_big_item(alloc, name, size, limit)?),
        standing: None,
    })
}
