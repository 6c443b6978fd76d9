//! What all subscriptions are told of one change of the graph.
ghost use Rattle.std.specs.Prelude.{◌≡◌, ◌≤◌, ◌<◌, [], Some, true, false, IfOk, OnErr, OnOk, length, map, vec_capacity};
ghost use Rattle.std.specs.List.{AllByRecursion, zip};
ghost use Rattle.ifmap_delta.specs.Bounds.{IsWithinBound};
ghost use Rattle.ifmap_delta.specs.Changes.{ShowsAfter};
ghost use Rattle.ifmap_delta.specs.Located.{IsPlannedDraft};
ghost use Rattle.ifmap_delta.specs.SeenViews.{IsUpToDate, view_seen};
ghost use Rattle.ifmap_delta.specs.SameSearches.{HasSameSearch};
ghost use Rattle.ifmap_delta.specs.ifmap_folds.Differences.{difference};
ghost use Rattle.ifmap_delta.specs.ifmap_fresh.Fresh.{fresh};
ghost use Rattle.ifmap_ident.specs.Items.{IsCanonItem};
ghost use Rattle.ifmap_standing.specs.Bounds.{IsWithinEach, IsWithinWhere};
ghost use Rattle.ifmap_standing.specs.Kept.{AreBroughtUpToDate, AtEach, CanBeTold, KeepsSame, StaysRelated};
ghost use Rattle.ifmap_standing.specs.Located.{IsLocatedIn, IsPlannedIn};
ghost use Rattle.ifmap_standing.specs.News.{news_of, news_of_each, news_where};
ghost use Rattle.ifmap_standing.specs.Standing.{standing_of};
ghost use Rattle.ifmap_standing.specs.Ways.{LeadBack, LeadsBack, LeadsBackWhere};
ghost use Rattle.ifmap_view.specs.Views.{IsView};

use crate::standing::Standing;
use crate::telling::{Differences, GraphChange, LocatedGraphChange, News, news_of};
use crate::ways::{Ways, take_back_one, take_change_back};
use ifmap_delta::{Moved, SubUndo, Subscription, locate_plan};
use ifmap_elem::Many;
use ifmap_steps::Steps;
use ifmap_view::View;
use std::alloc::{AllocError as NoMemory, Global};
use std::sync::ledger::Ledger;

/// What subscriptions are told of a change.
#[derive(Drop)]
pub struct NewsAndWays {
    /// What each is told, in order; nothing where it was skipped.
    pub news: Many<News>,
    /// The ways back.
    pub ways: Ways,
}

/// Tells each subscription that is not skipped what a change of the graph does to it: it takes over
/// what goes and what comes, and keeps what the draft has. What it is told is what the machine tells.
///
/// The only error is want of memory; each subscription keeps what it kept then. It takes at most
/// the sum of the steps that each may take, also at want of memory.
pub fn tell_change<G: View, D: View, L: Ledger>(
    alloc: Global,
    standing: &mut [Standing],
    skipped: &[bool],
    change: &GraphChange<'_, G, D>,
    steps: &mut Steps<L>,
) -> Result<NewsAndWays, NoMemory>
    requires can { CanBeTold (view_seen G.rows G.id_at G.links change.now.graph.now) skipped.now
        standing.old }
    requires change { ShowsAfter (view_seen G.rows G.id_at G.links change.now.graph.now)
        (view_seen D.rows D.id_at D.links change.now.draft.now) change.now.plan.now.changes }
    requires canon { AllByRecursion (λ n. IsCanonItem n.item) change.now.plan.now.notes }
    ensures same { AtEach (λ _. StaysRelated HasSameSearch) standing.old standing.new }
    ensures news { IfOk result (λ told. told.news ≡ news_of_each (G.rows change.now.graph.now)
        (D.rows change.now.draft.now) change.now.plan.now.notes skipped.now
        (map standing_of standing.old)) }
    ensures brought { OnOk result (AreBroughtUpToDate
        (view_seen D.rows D.id_at D.links change.now.draft.now) skipped.now standing.old
        standing.new) }
    ensures ways { IfOk result (λ told. LeadBack standing.old told.ways standing.new) }
    ensures err { OnErr result (AtEach (λ _. StaysRelated KeepsSame) standing.old standing.new) }

    // Also at want of memory.
    ensures steps { IsWithinEach (view_seen G.rows G.id_at G.links change.now.graph.now)
        (view_seen D.rows D.id_at D.links change.now.draft.now) (zip skipped.now standing.old)
        steps.old steps.new }
{
    let mut records = Records {
        news: Vec::with_capacity(alloc, skipped.len())?,
        ways: Vec::with_capacity(alloc, skipped.len())?,
    };
    look_at_views(standing, change);
    let located = locate_plan(alloc, change.graph, change.draft, change.plan)?;
    let located_change = LocatedGraphChange {
        graph: change.graph,
        draft: change.draft,
        located,
    };
    match tell_all(
        alloc,
        standing,
        skipped,
        &located_change,
        &mut records,
        steps,
    ) {
        Ok(()) => Ok(NewsAndWays {
            news: Many(records.news),
            ways: Ways {
                of_each: records.ways,
            },
        }),
        Err(no_memory) => {
            let ways = Ways {
                of_each: records.ways,
            };
            take_change_back(standing, ways);
            Err(no_memory)
        }
    }
}

// Looks at the two views, where there is a subscription, so that what holds of every view is known.
fn look_at_views<G: View, D: View>(standing: &[Standing], change: &GraphChange<'_, G, D>)
    ensures graph { let graph = change.now.graph.now in 0 < length standing.now
        → IsView (G.rows graph) (G.id_at graph) (G.links graph) }
    ensures draft { let draft = change.now.draft.now in 0 < length standing.now
        → IsView (D.rows draft) (D.id_at draft) (D.links draft) }
{
    if let Some(first) = standing.first() {
        let start = &first.subscription.search.start;
        let _ = change.graph.number(start);
        let _ = change.draft.number(start);
    }
}

// What subscriptions were told so far.
#[derive(Drop)]
struct Records {
    news: Vec<News>,
    ways: Vec<Option<SubUndo>>,
}

// Tells each that is not skipped. After want of memory the first have their ways back, and the others
// keep what they kept.
fn tell_all<G: View, D: View, L: Ledger>(
    alloc: Global,
    standing: &mut [Standing],
    skipped: &[bool],
    change: &LocatedGraphChange<'_, G, D>,
    records: &mut Records,
    steps: &mut Steps<L>,
) -> Result<(), NoMemory>
    requires can { CanBeTold (view_seen G.rows G.id_at G.links change.now.graph.now) skipped.now
        standing.old }
    requires located { 0 < length skipped.now → IsLocatedIn
        (view_seen G.rows G.id_at G.links change.now.graph.now)
        (view_seen D.rows D.id_at D.links change.now.draft.now) change.now.located }
    requires change { ShowsAfter (view_seen G.rows G.id_at G.links change.now.graph.now)
        (view_seen D.rows D.id_at D.links change.now.draft.now)
        change.now.located.plan.now.changes }
    requires canon { AllByRecursion (λ n. IsCanonItem n.item) change.now.located.plan.now.notes }
    requires no_news { records.old.news.items ≡ [] }
    requires no_ways { records.old.ways.items ≡ [] }
    requires news_room { length skipped.now ≤ vec_capacity records.old.news }
    requires ways_room { length skipped.now ≤ vec_capacity records.old.ways }
    ensures news { OnOk result (records.new.news.items ≡ news_of_each
        (G.rows change.now.graph.now) (D.rows change.now.draft.now)
        change.now.located.plan.now.notes skipped.now (map standing_of standing.old)) }
    ensures brought { OnOk result (AreBroughtUpToDate
        (view_seen D.rows D.id_at D.links change.now.draft.now) skipped.now standing.old
        standing.new) }
    ensures ways { LeadBack standing.old records.new.ways.items standing.new }
    ensures steps { IsWithinEach (view_seen G.rows G.id_at G.links change.now.graph.now)
        (view_seen D.rows D.id_at D.links change.now.draft.now) (zip skipped.now standing.old)
        steps.old steps.new }
{
    for at in 0..skipped.len() {
        let told = tell_where(alloc, &mut standing[at], skipped[at], change, steps)?;
        records.news.push_reserved(told.news);
        records.ways.push_reserved(told.way);
    }
    Ok(())
}

// What one subscription is told, with its way back; none where it is skipped.
#[derive(Drop)]
struct Record {
    news: News,
    way: Option<SubUndo>,
}

// Tells one, where it is not skipped.
fn tell_where<G: View, D: View, L: Ledger>(
    alloc: Global,
    standing: &mut Standing,
    is_skipped: bool,
    change: &LocatedGraphChange<'_, G, D>,
    steps: &mut Steps<L>,
) -> Result<Record, NoMemory>
    requires planned { IsPlannedIn (view_seen G.rows G.id_at G.links change.now.graph.now)
        (view_seen D.rows D.id_at D.links change.now.draft.now) change.now.located }
    requires kept { is_skipped ≡ false → IsUpToDate
        (view_seen G.rows G.id_at G.links change.now.graph.now) standing.old.subscription }
    ensures news { IfOk result (λ told. told.news ≡ news_where (G.rows change.now.graph.now)
        (D.rows change.now.draft.now) change.now.located.plan.now.notes is_skipped
        (standing_of standing.old)) }
    ensures kept { OnOk result (is_skipped ≡ false → IsUpToDate
        (view_seen D.rows D.id_at D.links change.now.draft.now) standing.new.subscription) }
    ensures skipped { OnOk result (is_skipped ≡ true → standing.new ≡ standing.old) }
    ensures way { IfOk result (λ told. StaysRelated (LeadsBackWhere (Some told.way)) standing.old
        standing.new) }
    ensures err { OnErr result (StaysRelated KeepsSame standing.old standing.new) }
    ensures steps { IsWithinWhere (view_seen G.rows G.id_at G.links change.now.graph.now)
        (view_seen D.rows D.id_at D.links change.now.draft.now) is_skipped standing.old
        steps.old steps.new }
{
    if is_skipped {
        let news = News {
            items: Many(Vec::new(alloc)),
            is_too_big: false,
        };
        return Ok(Record { news, way: None });
    }
    tell_one(alloc, standing, change, steps)
}

// Tells one: it takes the change over, and takes it back at want of memory for the news.
fn tell_one<G: View, D: View, L: Ledger>(
    alloc: Global,
    standing: &mut Standing,
    change: &LocatedGraphChange<'_, G, D>,
    steps: &mut Steps<L>,
) -> Result<Record, NoMemory>
    requires planned { IsPlannedIn (view_seen G.rows G.id_at G.links change.now.graph.now)
        (view_seen D.rows D.id_at D.links change.now.draft.now) change.now.located }
    requires kept { IsUpToDate (view_seen G.rows G.id_at G.links change.now.graph.now)
        standing.old.subscription }
    ensures news { IfOk result (λ told. told.news ≡ news_of (G.rows change.now.graph.now)
        (D.rows change.now.draft.now) change.now.located.plan.now.notes
        (standing_of standing.old)) }
    ensures kept { OnOk result (IsUpToDate
        (view_seen D.rows D.id_at D.links change.now.draft.now) standing.new.subscription) }
    ensures way { IfOk result (λ told. StaysRelated (LeadsBackWhere (Some told.way)) standing.old
        standing.new) }
    ensures err { OnErr result (StaysRelated KeepsSame standing.old standing.new) }
    ensures steps { IsWithinBound (view_seen G.rows G.id_at G.links change.now.graph.now)
        (view_seen D.rows D.id_at D.links change.now.draft.now)
        standing.old.subscription.search standing.old.subscription.region.start
        steps.old steps.new }
{
    let taken = take_over(alloc, &mut standing.subscription, change, steps)?;
    let TakenOver { differences, undo } = taken;
    match news_of(alloc, standing, differences, change) {
        Ok(news) => Ok(Record {
            news,
            way: Some(undo),
        }),
        Err(no_memory) => {
            take_back_one(&mut standing.subscription, Some(undo));
            Err(no_memory)
        }
    }
}

// What a subscription took over.
#[derive(Drop)]
struct TakenOver {
    differences: Differences,
    undo: SubUndo,
}

// A subscription takes over what a change does to it.
fn take_over<G: View, D: View, L: Ledger>(
    alloc: Global,
    subscription: &mut Subscription,
    change: &LocatedGraphChange<'_, G, D>,
    steps: &mut Steps<L>,
) -> Result<TakenOver, NoMemory>
    requires planned { IsPlannedDraft (view_seen G.rows G.id_at G.links change.now.graph.now)
        (view_seen D.rows D.id_at D.links change.now.draft.now) change.now.located }
    requires kept { IsUpToDate (view_seen G.rows G.id_at G.links change.now.graph.now)
        subscription.old }
    ensures deleted { IfOk result (λ taken. taken.differences.deleted
        ≡ difference (fresh (G.rows change.now.graph.now) subscription.old.search)
        (fresh (D.rows change.now.draft.now) subscription.old.search)) }
    ensures updated { IfOk result (λ taken. taken.differences.updated
        ≡ difference (fresh (D.rows change.now.draft.now) subscription.old.search)
        (fresh (G.rows change.now.graph.now) subscription.old.search)) }
    ensures kept { OnOk result (IsUpToDate
        (view_seen D.rows D.id_at D.links change.now.draft.now) subscription.new) }
    ensures way { IfOk result (λ taken. LeadsBack subscription.old taken.undo
        subscription.new) }
    ensures err { OnErr result (KeepsSame subscription.old subscription.new) }
    ensures steps { IsWithinBound (view_seen G.rows G.id_at G.links change.now.graph.now)
        (view_seen D.rows D.id_at D.links change.now.draft.now) subscription.old.search
        subscription.old.region.start steps.old steps.new }
{
    let LocatedGraphChange {
        graph,
        draft,
        located,
    } = change;
    let moved = ifmap_delta::change(alloc, subscription, *graph, *draft, located, steps)?;
    subscription.reserve(&moved)?;
    let Moved {
        deleted,
        updated,
        patch,
        new_size,
    } = moved;
    let undo = subscription.commit_kept(patch, new_size);
    Ok(TakenOver {
        differences: Differences { deleted, updated },
        undo,
    })
}
