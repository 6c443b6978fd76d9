//! Laws of the desks: functions that do nothing, whose contracts are the laws.
ghost use Rattle.std.specs.Prelude.{◌≡◌, ◌↔◌, ℕ, List, [], true};
ghost use Rattle.ifmap_core.specs.EmptyPolls.{WouldHold};
ghost use Rattle.ifmap_desks.specs.Calls.{Log, calls_from};
ghost use Rattle.ifmap_desks.specs.Holding.{would_hold};
ghost use Rattle.ifmap_desks.specs.Machines.{CoreView, core_next};
ghost use Rattle.ifmap_desks.specs.Recalls.{Recalls};
ghost use Rattle.ifmap_desks.specs.declared.machine.CoreMachine.{CoreMachine};
ghost use Rattle.ifmap_dialogue.specs.Desks.{FitsAnswer};
ghost use Rattle.ifmap_hall.specs.Sights.{run};
ghost use Rattle.ifmap_dialogue.specs.ifmap_machine.Agreeing.{Agrees};
ghost use Rattle.ifmap_dialogue.specs.ifmap_machine.Events.{Event};
ghost use Rattle.ifmap_dialogue.specs.ifmap_machine.Legal.{Legal, state_from};
ghost use Rattle.ifmap_dialogue.specs.ifmap_machine.Since.{AgreesFrom};
ghost use Rattle.ifmap_dialogue.specs.ifmap_machine.State.{State, opening_state};
ghost use Rattle.ifmap_dialogue.specs.ifmap_machine.Step.{step};

use ifmap_dialogue::{clients_fold_fresh_results, clients_fold_fresh_results_from_any_entry};

/// The test whether an event would be held is true exactly where it would be.
pub fn holding_is_exact()
    ensures { (state : State) (event : Event)
        → would_hold state event ≡ true ↔ WouldHold state event }
{}

/// A pass that entered nothing and said nothing has said what the machine answered.
pub fn silent_passes_recall()
    ensures { (v : CoreView) → v.mine ≡ [] → v.said ≡ [] → ∥ Recalls v ∥₁ }
{}

/// The machine answers each event with an answer that it can have: what is held is a poll, what a
/// poll is told is told to a poll alone, and that an answer was lost is heard, and nothing else is.
pub fn answers_fit_events()
    ensures { (state : State) (event : Event) → FitsAnswer event (step state event).1 }
{}

/// The calls of every log of a machine are a legal history, and the machine is run by it. From an
/// opening state on the clients agree in it: after each poll that is told something or held, what
/// its client folds of all that it was told since the opening state is, for each subscription that
/// the session keeps, the fresh result of its search. The same can be seen from any entry of the
/// log on.
pub fn clients_agree_in_every_log()
    ensures legal { (ttl : ℕ) (log : Log) → Legal ttl (calls_from (opening_state ttl) log) }
    ensures state { (machine : CoreMachine) (log : Log)
        → (run core_next machine log).core ≡ state_from machine.core (calls_from machine.core log) }
    ensures agrees { (ttl : ℕ) (log : Log) → Agrees ttl (calls_from (opening_state ttl) log) }
    ensures since { (ttl : ℕ) (past log : Log)
        → AgreesFrom (run core_next (record { core = opening_state ttl }) past).core
        (calls_from (run core_next (record { core = opening_state ttl }) past).core log) }
{
    clients_fold_fresh_results();
    clients_fold_fresh_results_from_any_entry();
}
