//! A drill, event by event.
ghost use Rattle.std.specs.Prelude.{◌≡◌, ◌<◌, OnOk};
ghost use Rattle.std.specs.List.{AllByRecursion};
ghost use Rattle.ifmap_elem.specs.Chars.{IsCharacters};
ghost use Rattle.ifmap_drill.specs.Drills.{Drilling, after_answer, after_event, drill_beginning, id_given, ids_after};
ghost use Rattle.ifmap_io.specs.Limits.{most_events};
ghost use Rattle.ifmap_drill.specs.Following.{drill_of};
ghost use Rattle.ifmap_drill.specs.Summaries.{summary_of};

use crate::drill_counts::DrillCounts;
use crate::events::make_event;
use crate::tasks::CLIENT_COUNT;
use ifmap_core::{Answer, Core, Event, Reply, SESSION_SECONDS};
use ifmap_elem::{Many, Text};
use ifmap_steps::Steps;
use rand_core::SeedableRng;
use rand_pcg::Lcg128Xsl64;
use std::alloc::{AllocError as NoMemory, Global};
use std::sync::ledger::Ledger;

/// A drill between two events.
#[derive(Drop)]
pub struct Drill {
    /// The machine.
    pub core: Core,
    /// The ids of the sessions that began, by the numbers of their clients.
    pub ids: Many<Text>,
    /// The generator.
    pub draws: Lcg128Xsl64,
    /// What is counted so far.
    pub counts: DrillCounts,
}

impl Drill {
    /// Before the first event.
    pub fn new(alloc: Global, key: u64) -> Drill
        ensures { result ≡ drill_of (drill_beginning key) }
    {
        Drill {
            core: Core::new(alloc, SESSION_SECONDS),
            ids: Many::new(alloc),
            draws: Lcg128Xsl64::seed_from_u64(key),
            counts: DrillCounts::new(),
        }
    }

    /// Makes event `i`, and has the machine answer it.
    pub fn take_event<L: Ledger>(
        &mut self,
        alloc: Global,
        i: u32,
        steps: &mut Steps<L>,
    ) -> Result<(), NoMemory>
        requires few { i < most_events }
        requires fit { AllByRecursion IsCharacters self.old.ids }
        ensures { OnOk result ((d : Drilling) → self.old ≡ drill_of d
            → self.new ≡ drill_of (after_event i d)) }
    {
        let event = make_event(alloc, i, &self.ids, &mut self.draws)?;
        self.answer_event(alloc, i, &event, steps)
    }

    // Has the machine answer event `i`.
    fn answer_event<L: Ledger>(
        &mut self,
        alloc: Global,
        i: u32,
        event: &Event,
        steps: &mut Steps<L>,
    ) -> Result<(), NoMemory>
        ensures { OnOk result ((d : Drilling) → self.old ≡ drill_of d
            → self.new ≡ drill_of (after_answer i event.now self.old.draws d)) }
    {
        let answer = self.core.step(alloc, event, steps)?;
        self.counts.count(&event.ask, &answer);
        keep_id(alloc, i, answer, &mut self.ids)
    }

    /// All that was counted.
    pub fn summary(&self) -> DrillCounts
        ensures { (d : Drilling) → self.now ≡ drill_of d → result ≡ summary_of d }
    {
        DrillCounts {
            links: self.core.links(),
            ..self.counts
        }
    }
}

// Keeps the id that the answer to one of the first ten events gave.
fn keep_id(alloc: Global, i: u32, answer: Answer, ids: &mut Many<Text>) -> Result<(), NoMemory>
    ensures { OnOk result (ids.new ≡ ids_after i answer ids.old) }
{
    if i < CLIENT_COUNT {
        ids.push(id_given(alloc, answer))?;
    }
    Ok(())
}

// The id that an answer gives.
fn id_given(alloc: Global, answer: Answer) -> Text
    ensures { result ≡ id_given answer }
{
    match answer {
        Answer::Reply(Reply::NewSession { session, .. }) => session,
        _ => Text::new(alloc),
    }
}
