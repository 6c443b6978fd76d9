//! Polls that may be asked again.
ghost use Rattle.std.specs.Prelude.{◌≡◌, ℕ, true, IfOk};
ghost use Rattle.ifmap_elem.specs.Chars.{IsCharacters};
ghost use Rattle.ifmap_dialogue.specs.Turns.{event_of_question, lost_event, question_of};

use crate::settings::Setting;
use ifmap_elem::{Copied, Text};
use ifmap_io::Clock;
use ifmap_machine::{Ask, Event, Request};
use ifmap_meta::ClientName;
use std::alloc::AllocError as NoMemory;

/// A poll, with what its events have in common.
#[derive(Debug, Drop)]
pub struct Poll {
    /// Who polls.
    pub client: ClientName,
    /// In which session.
    pub session: Text,
    /// The random word of its events.
    pub random: u128,
    /// The length of its body, in bytes.
    pub bytes: u32,
}

impl Poll {
    // The event by which it is asked again.
    pub(crate) fn repeated_event<C: Clock>(
        &self,
        setting: &Setting<'_, C>,
    ) -> Result<Event, NoMemory>
        requires { IsCharacters self.now.session }
        ensures { IfOk result (λ event. (moment : ℕ) × C.gives setting.now.clock.now moment
            × (event ≡ event_of_question (question_of self.now) true moment)) }
    {
        let client = self.client.copy(setting.alloc)?;
        let session = self.session.copy(setting.alloc)?;
        Ok(Event {
            moment: setting.clock.now(),
            client,
            random: self.random,
            again: true,
            bytes: self.bytes,
            ask: Ask::Request(Request::Poll { session }),
        })
    }

    // The event that tells that the answer to it was lost.
    pub(crate) fn lost_event<C: Clock>(self, setting: &Setting<'_, C>) -> Event
        requires { IsCharacters self.session }
        ensures { (moment : ℕ) × C.gives setting.now.clock.now moment
            × (result ≡ lost_event self moment) }
    {
        let Poll {
            client,
            session,
            random,
            bytes: _,
        } = self;
        Event {
            moment: setting.clock.now(),
            client,
            random,
            again: false,
            bytes: 0,
            ask: Ask::Lost(session),
        }
    }
}
