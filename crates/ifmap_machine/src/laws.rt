//! Laws of the machine, over all its histories: functions that do nothing, whose contracts are the laws.
ghost use Rattle.std.specs.Prelude.{◌≢◌, ◌≤◌, ◌++◌, ℕ, All, AllPairs, length};
ghost use Rattle.std.specs.List.Sorted.{IsStrictlySortedBy};
ghost use Rattle.ifmap_machine.specs.Agreeing.{Agrees};
ghost use Rattle.ifmap_machine.specs.Events.{Event, IsFitEvent};
ghost use Rattle.ifmap_machine.specs.FitAnswers.{AreFitAnswers, AreReadBack, IsFitState, IsFitStep};
ghost use Rattle.ifmap_machine.specs.Legal.{AreFit, History, Legal, live_clients, state_after};
ghost use Rattle.ifmap_machine.specs.Lives.{AllLive};
ghost use Rattle.ifmap_machine.specs.Since.{AgreesFrom};
ghost use Rattle.ifmap_machine.specs.State.{State, opening_state, standing_in, standing_order};
ghost use Rattle.ifmap_machine.specs.Step.{step};
ghost use Rattle.ifmap_machine.specs.Subscribing.{most_names};
ghost use Rattle.ifmap_folds.specs.ifmap_plans.Plans.{AreWhole};
ghost use Rattle.ifmap_session.specs.Sessions.{most_sessions};
ghost use Rattle.ifmap_publish.specs.ifmap_view.Attachments.{IsGraph};

use ifmap_folds::laws::differences_make_the_next_result;
use ifmap_ident::laws::bytes_tell_identifiers_apart;
use ifmap_publish::laws::{publishing_keeps_graphs, retracting_keeps_graphs};
use ifmap_replies::laws::replies_are_read_back;

/// After every history no two live sessions have one client, no live session has a serial above the
/// counter, and at most 10,000 sessions live.
pub fn sessions_are_apart()
    ensures apart { (ttl : ℕ) (history : History) → AllPairs
        (λ one other. one ≢ other) (live_clients (state_after ttl history)) }
    ensures counted { (ttl : ℕ) (history : History) → All
        (λ s. s.serial ≤ (state_after ttl history).counter) (state_after ttl history).sessions }
    ensures most { (ttl : ℕ) (history : History) →
        length (state_after ttl history).sessions ≤ most_sessions }
{}

/// After every history the subscriptions stand in order, so that no session has two of one name, and no
/// session has more than 1,000.
pub fn subscriptions_are_apart()
    ensures rising { (ttl : ℕ) (history : History) →
        IsStrictlySortedBy standing_order (state_after ttl history).standing }
    ensures few { (ttl : ℕ) (history : History) (serial : ℕ) →
        length (standing_in serial (state_after ttl history).standing) ≤ most_names }
{}

/// After every history what is to stay as long as a session belongs to a live session of the client
/// that published it; and after every legal history of fit events the graph rises strictly, its keys
/// are distinct, and its attachments are whole.
pub fn attachments_are_apart_and_live()
    ensures lives { (ttl : ℕ) (history : History) → AllLive (state_after ttl history) }
    ensures graph { (ttl : ℕ) (history : History) → Legal ttl history → AreFit history →
        IsGraph (state_after ttl history).graph }
    ensures whole { (ttl : ℕ) (history : History) → Legal ttl history → AreFit history →
        AreWhole (state_after ttl history).graph }
{
    publishing_keeps_graphs();
    retracting_keeps_graphs();
}

/// In every legal history of fit events, after each poll that is told something or held, what its client
/// folds of all that it was told is, for each subscription that the session keeps, the fresh result of
/// its search.
pub fn clients_fold_fresh_results()
    ensures { (ttl : ℕ) (history : History) → Legal ttl history → AreFit history →
        Agrees ttl history }
{
    publishing_keeps_graphs();
    retracting_keeps_graphs();
    bytes_tell_identifiers_apart();
    differences_make_the_next_result();
}

/// What can be seen of a legal history of fit events from any of its entries on. At each poll that is
/// told something or held, for each subscription that the session then keeps: where an accepted update
/// of it is among these entries, what the client folds of all that it was told in them is the fresh
/// result of its search; and where an earlier poll of the session that was told is among them, what it
/// was told since, folded onto the fresh result at that poll, is the fresh result.
pub fn clients_fold_fresh_results_from_any_entry()
    ensures { (ttl : ℕ) (past entries : History) → Legal ttl (past ++ entries)
        → AreFit (past ++ entries) → AgreesFrom (state_after ttl past) entries }
{
    publishing_keeps_graphs();
    retracting_keeps_graphs();
    bytes_tell_identifiers_apart();
    differences_make_the_next_result();
}

/// In every legal history of fit events each answer that is sent is a fit reply, and its bytes mean it. From
/// a fit state a fit event leads to a fit state, and is answered so; the opening state is fit.
pub fn replies_are_fit()
    ensures fit { (ttl : ℕ) (history : History) → Legal ttl history → AreFit history →
        AreFitAnswers history }
    ensures read_back { (ttl : ℕ) (history : History) → Legal ttl history → AreFit history →
        AreReadBack history }
    ensures step { (state : State) (event : Event) → IsFitEvent event → IsFitState state →
        IsFitStep (step state event) }
    ensures opening { (ttl : ℕ) → IsFitState (opening_state ttl) }
{
    publishing_keeps_graphs();
    retracting_keeps_graphs();
    replies_are_read_back();
}
