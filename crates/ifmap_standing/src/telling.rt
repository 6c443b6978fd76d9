//! What one subscription is told of a change.
ghost use Rattle.std.specs.Prelude.{◌≡◌, ◌++◌, ◌∷◌, [], Some, true, IfOk, OnOk};
ghost use Rattle.std.specs.List.{AllByRecursion};
ghost use Rattle.ifmap_delta.specs.SeenViews.{IsUpToDate, view_seen};
ghost use Rattle.ifmap_delta.specs.ifmap_fresh.Fresh.{fresh};
ghost use Rattle.ifmap_delta.specs.ifmap_folds.Differences.{difference};
ghost use Rattle.ifmap_ident.specs.Items.{IsCanonItem};
ghost use Rattle.ifmap_ident.specs.declared.codes.Code.TheVariants.{SearchResultsTooBig};
ghost use Rattle.ifmap_machine.specs.Telling as machine;
ghost use Rattle.ifmap_delta.specs.ifmap_search.declared.results.PollItem.TheVariants as the_item;
ghost use Rattle.ifmap_standing.specs.Located.{IsLocatedIn};
ghost use Rattle.ifmap_standing.specs.News.{item_by_cause, news_of};
ghost use Rattle.ifmap_standing.specs.Standing.{standing_of};

use crate::standing::Standing;
use ifmap_delta::{Entry, LocatedPlan, Plan, PollItem, notes};
use ifmap_elem::{Copied, Many, Text};
use ifmap_ident::Code;
use ifmap_view::View;
use std::alloc::{AllocError as NoMemory, Global};

/// A change of the graph: the graph before it, the draft, which shows the graph after it, and the plan
/// that leads from the one to the other.
#[derive(Drop)]
pub struct GraphChange<'a, G: View, D: View> {
    pub graph: &'a G,
    pub draft: &'a D,
    pub plan: &'a Plan,
}

// A change of the graph with the items of its plan in both, which are looked up once for all
// subscriptions.
#[derive(Drop)]
pub(crate) struct LocatedGraphChange<'a, G: View, D: View> {
    pub(crate) graph: &'a G,
    pub(crate) draft: &'a D,
    pub(crate) located: LocatedPlan<'a>,
}

/// What one subscription is told of a change.
#[derive(Drop)]
pub struct News {
    /// What is to be queued for its session, in order.
    pub items: Many<PollItem>,
    /// Whether its result is greater than the search allows now, so that it is to stand no longer.
    pub is_too_big: bool,
}

// What went from a result, and what came into it.
#[derive(Drop)]
pub(crate) struct Differences {
    pub deleted: Many<Entry>,
    pub updated: Many<Entry>,
}

// Why entries are told.
#[derive(Clone, Copy)]
enum Cause {
    // They went from the result.
    Deleted,
    // They came into it.
    Updated,
    // They were notified.
    Notified,
}

// What a subscription is told of a change that it took over.
pub(crate) fn news_of<G: View, D: View>(
    alloc: Global,
    standing: &Standing,
    differences: Differences,
    change: &LocatedGraphChange<'_, G, D>,
) -> Result<News, NoMemory>
    requires located { IsLocatedIn (view_seen G.rows G.id_at G.links change.now.graph.now)
        (view_seen D.rows D.id_at D.links change.now.draft.now) change.now.located }
    requires kept { IsUpToDate (view_seen D.rows D.id_at D.links change.now.draft.now)
        standing.now.subscription }
    requires canon { AllByRecursion (λ n. IsCanonItem n.item) change.now.located.plan.now.notes }
    requires deleted { let search = standing.now.subscription.search in differences.deleted
        ≡ difference (fresh (G.rows change.now.graph.now) search)
        (fresh (D.rows change.now.draft.now) search) }
    requires updated { let search = standing.now.subscription.search in differences.updated
        ≡ difference (fresh (D.rows change.now.draft.now) search)
        (fresh (G.rows change.now.graph.now) search) }
    ensures { IfOk result (λ news. news ≡ news_of (G.rows change.now.graph.now)
        (D.rows change.now.draft.now) change.now.located.plan.now.notes
        (standing_of standing.now)) }
{
    let limit = standing.subscription.search.max_size;
    let size = standing.subscription.size;
    if limit < size {
        return too_big_news(alloc, &standing.name, size, limit);
    }
    let notified = notes(alloc, &standing.subscription, change.draft, &change.located)?;
    let items = differing_items(alloc, &standing.name, differences, notified)?;
    Ok(News {
        items,
        is_too_big: false,
    })
}

// The error of a subscription whose result is too big, alone.
fn too_big_news(alloc: Global, name: &Text, size: u64, limit: u64) -> Result<News, NoMemory>
    ensures items { IfOk result (λ news. news.items
        ≡ the_item.Error (Some name.now) SearchResultsTooBig (machine.limit_note size limit) ∷ []) }
    ensures is_too_big { IfOk result (λ news. news.is_too_big ≡ true) }
{
    let mut items = Vec::with_capacity(alloc, 1)?;
    items.push_reserved(too_big_item(alloc, name, size, limit)?);
    Ok(News {
        items: Many(items),
        is_too_big: true,
    })
}

// What went, what came, and what was notified, each where there is something.
fn differing_items(
    alloc: Global,
    name: &Text,
    differences: Differences,
    notified: Many<Entry>,
) -> Result<Many<PollItem>, NoMemory>
    ensures { IfOk result (λ items. items
        ≡ machine.item_if_any (the_item.Delete name.now) differences.deleted
        ++ (machine.item_if_any (the_item.Update name.now) differences.updated
        ++ machine.item_if_any (the_item.Notify name.now) notified)) }
{
    let mut items = Vec::new(alloc);
    add_item(alloc, name, Cause::Deleted, differences.deleted, &mut items)?;
    add_item(alloc, name, Cause::Updated, differences.updated, &mut items)?;
    add_item(alloc, name, Cause::Notified, notified, &mut items)?;
    Ok(Many(items))
}

/// The error that a subscription is told whose result has a size that is greater than its search
/// allows.
pub fn too_big_item(alloc: Global, name: &Text, size: u64, limit: u64) -> Result<PollItem, NoMemory>
    ensures { IfOk result (λ item. item
        ≡ the_item.Error (Some name.now) SearchResultsTooBig (machine.limit_note size limit)) }
{
    Ok(PollItem::Error {
        name: Some(name.copy(alloc)?),
        code: Code::SearchResultsTooBig,
        note: limit_note(alloc, size, limit)?,
    })
}

/// The note of an error for size.
pub fn limit_note(alloc: Global, size: u64, limit: u64) -> Result<Text, NoMemory>
    ensures { IfOk result (λ note. note ≡ machine.limit_note size limit) }
{
    Ok(Text(format!(in alloc; "{size} of {limit}")?))
}

// One more item of these entries, where there is one.
fn add_item(
    alloc: Global,
    name: &Text,
    cause: Cause,
    entries: Many<Entry>,
    items: &mut Vec<PollItem>,
) -> Result<(), NoMemory>
    ensures { OnOk result (items.new.items
        ≡ items.old.items ++ machine.item_if_any (item_by_cause cause name.now) entries) }
{
    if entries.is_empty() {
        return Ok(());
    }
    let name = name.copy(alloc)?;
    items.push(item_by_cause(cause, name, entries))?;
    Ok(())
}

// The item that tells entries.
fn item_by_cause(cause: Cause, name: Text, entries: Many<Entry>) -> PollItem
    ensures { result ≡ item_by_cause cause name entries }
{
    match cause {
        Cause::Deleted => PollItem::Delete { name, entries },
        Cause::Updated => PollItem::Update { name, entries },
        Cause::Notified => PollItem::Notify { name, entries },
    }
}
