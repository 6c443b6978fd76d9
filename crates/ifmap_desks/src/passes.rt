//! Asking a hall by a pass of it.
ghost use Rattle.std.specs.Prelude.{◌≡◌, ◌≤◌, ◌∷◌, []};
ghost use Rattle.ifmap_desks.specs.Agreement.{ClientsAgree, EntriesAgree};
ghost use Rattle.ifmap_desks.specs.Asking.{AnsweredByHall, number_at, parts_at, pass_seen, view_at};
ghost use Rattle.ifmap_desks.specs.Machines.{core_next};
ghost use Rattle.ifmap_desks.specs.Recalls.{Recalls};
ghost use Rattle.ifmap_dialogue.specs.Desks.{DeskTakesTurns, greatest_weight, weight};
ghost use Rattle.ifmap_hall.specs.HallAsks.{TookATurn};
ghost use Rattle.ifmap_hall.specs.Passes.{IsOf, view_of};
ghost use Rattle.ifmap_hall.specs.Sights.{CarriesOn};
ghost use Rattle.ifmap_hall.specs.Views.{sight_by};

use crate::answers::{AnswerCounts, plain_answer};
use crate::events::FitEvent;
use crate::laws::{answers_fit_events, clients_agree_in_every_log, holding_is_exact};
use crate::machine::CoreMachine;
use crate::pass_desk::PassDesk;
use ifmap_dialogue::{Answer, Desk, Event};
use ifmap_hall::{Asked, Hall, Pass};
use std::alloc::Global;
use std::sync::Wait;

impl<'a, R: Wait> PassDesk<'a, R> {
    /// A desk that asks this hall by this pass of it. It takes no memory.
    pub fn new(
        rt: &'a R,
        alloc: Global,
        hall: &'a Hall<CoreMachine>,
        pass: &'a mut Pass<CoreMachine>,
    ) -> PassDesk<'a, R>
        requires own { IsOf hall.now pass.old }
        requires bears { greatest_weight ≤ (view_of pass.old).terms.heaviest }
        requires recalls { ∥ Recalls (view_of pass.old) ∥₁ }
        ensures same_reference { result.pass.ghost_name ≡ pass.entry.ghost_name }
        ensures home { (pass_seen result).home ≡ hall.now }
        ensures pass { result.pass.now ≡ pass.old }
        ensures held { (pass_seen result).held ≡ 0 }
        ensures spent { (pass_seen result).spent ≡ 0 }
    {
        PassDesk {
            rt,
            alloc,
            hall,
            pass,
            counts: AnswerCounts::new(),
        }
    }
}

impl<'a, R: Wait> Desk for PassDesk<'a, R> {
    type Home = Hall<CoreMachine>;

    ghost seen = { pass_seen };

    /// Asks the hall in turn, and may wait for it. What the pass has seen is afterwards all that the
    /// hall has seen from its opening state on, and the answer is that of the machine after it.
    fn ask(&mut self, event: Event) -> Asked<Event, Answer>
        requires light { weight event ≤ greatest_weight }
        ensures tells { DeskTakesTurns (pass_seen self.old) (pass_seen self.new)
            (record { event = event; asked = result } ∷ []) }
        ensures number { number_at self.new ≡ number_at self.old }
        ensures parts { parts_at self.new ≡ parts_at self.old }
        ensures carries { CarriesOn core_next (sight_by core_next (view_at self.old))
            (sight_by core_next (view_at self.new)) }
        ensures took { TookATurn (view_at self.old) (view_at self.new) }
        ensures answered { AnsweredByHall (view_at self.old) (view_at self.new)
            (number_at self.old) event result }
        ensures agrees { ClientsAgree (view_at self.new) }
        ensures entries_agree { EntriesAgree (view_at self.new) }
    {
        answers_fit_events();
        holding_is_exact();
        clients_agree_in_every_log();
        let asked = self.hall.ask(self.rt, self.alloc, self.pass, FitEvent::from_event(event));
        let answer = plain_answer(asked);
        self.counts.count(&answer);
        answer
    }
}
