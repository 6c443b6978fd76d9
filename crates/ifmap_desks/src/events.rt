//! Events as a hall keeps them.
ghost use Rattle.std.specs.Prelude.{◌≡◌};
ghost use Rattle.ifmap_dialogue.specs.ifmap_machine.Events.{IsFitEvent};

use ifmap_dialogue::Event;

/// An event that is known to be fit wherever contracts speak of it: of the entries of a history they
/// see values alone, and this one has its proof beside it. It takes no more bytes than the event.
#[derive(Drop)]
pub struct FitEvent {
    /// The event.
    pub event: Event,
    pub ghost fit: { ∥ IsFitEvent event ∥₁ },
}

impl FitEvent {
    /// The event, which is fit by its type.
    pub fn from_event(event: Event) -> FitEvent
        ensures { result.event ≡ event }
    {
        // The look tells the proof what each event meets.
        let _bytes = event.bytes;
        FitEvent { event }
    }
}
