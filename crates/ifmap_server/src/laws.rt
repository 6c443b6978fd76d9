//! Laws of scripts, over all bytes.
ghost use Rattle.std.specs.Prelude.{◌≡◌, ℕ, List, Option};
ghost use Rattle.ifmap_core.specs.ifmap_machine.Agreeing.{Agrees};
ghost use Rattle.ifmap_core.specs.ifmap_machine.Legal.{AreFit, Legal};
ghost use Rattle.ifmap_core.specs.ifmap_machine.State.{session_seconds};
ghost use Rattle.ifmap_server.specs.Frames.{Frame};
ghost use Rattle.ifmap_server.specs.Histories.{history_of};
ghost use Rattle.ifmap_server.specs.Output.{IsOutput};
ghost use Rattle.ifmap_server.specs.Script.{IsScript};

use ifmap_core::clients_fold_fresh_results;
use ifmap_requests::laws::{
    bodies_have_one_meaning, bodies_mean_fit_requests, bodies_mean_something,
};

/// Any bytes are the text of one list of frames at most, and of one fault or of none.
pub fn bytes_are_one_script()
    ensures { (bytes : List ℕ) (frames others : List Frame) (fault other : Option ℕ) →
        IsScript bytes frames fault → IsScript bytes others other
        → (frames ≡ others) × (fault ≡ other) }
{
    bodies_have_one_meaning();
}

/// And they are the text of one, so that they have an output.
pub fn bytes_have_some_output()
    ensures script { (bytes : List ℕ) →
        (frames : List Frame) × (fault : Option ℕ) × IsScript bytes frames fault }
    ensures output { (bytes : List ℕ) → (text : List ℕ) × IsOutput bytes text }
{
    bodies_mean_something();
}

/// The history that a script makes is legal, its events are fit, and its clients agree: after each
/// poll that is told something or held, what its client folds of all that it was told is, for each
/// subscription that its session keeps, the fresh result of its search.
pub fn scripts_agree()
    ensures legal { (frames : List Frame) → Legal session_seconds (history_of frames) }
    ensures fit { (bytes : List ℕ) (frames : List Frame) (fault : Option ℕ) →
        IsScript bytes frames fault → AreFit (history_of frames) }
    ensures agrees { (bytes : List ℕ) (frames : List Frame) (fault : Option ℕ) →
        IsScript bytes frames fault → Agrees session_seconds (history_of frames) }
{
    bodies_mean_fit_requests();
    clients_fold_fresh_results();
}
