// The picture session: the units of a picture, read in the order of their addresses.
#![tactic(auto)]

mod state;

ghost use Rattle.std.specs.Prelude.{◌≡◌, ℕ, ◌<◌, Ok};
ghost use Rattle.refusals.specs.Said.{said, numbered};
ghost use Rattle.picture.specs.State.{call};
ghost use Rattle.picture.specs.Session.{opening, returned, replied, Yields};

use refusals::Reason;
pub use state::{next_due, state_at};
use unit::{Answer, Coding};

// Document 01's session: the settings, of any coding, and the address due. Its fields are open to its holder, so a call
// checks them again.
#[derive(Clone, Copy)]
pub struct Session<S> {
    pub settings: S,
    pub due: usize,
}

// What a unit call returns: the session that it yields, and its answer.
#[derive(Clone, Copy)]
pub struct Called<S> {
    pub session: Session<S>,
    pub answer: Answer,
}

impl<S: Coding> Session<S> {
    // Opens a session of a picture with these settings, or answers what is wrong with them.
    #[tactic(auto, unfolding(crate::specs::State::opened_by))]
    pub fn open(settings: S) -> Result<Session<S>, Reason>
        ensures { numbered result ≡ opening S.units settings }
    {
        settings.check()?;
        Ok(Session { settings, due: 0 })
    }

    // What a call with an answer returns: an accepted unit yields the next session, a refused one the same.
    fn returned(self, answer: Answer) -> Called<S>
        requires { (count : ℕ) → answer ≡ Ok count → self.due < 1048576 }
        ensures { replied result ≡ returned self (said answer) }
    {
        Called {
            session: Session {
                due: next_due(self.due, answer),
                ..self
            },
            answer,
        }
    }

    // The unit call: reads the flags of the unit at an address, which must be the due one, into the row buffer. A refusal,
    // 22, 20, 21 and 11 to 14, leaves the session and the buffer as they were.
    pub fn unit(self, address: usize, flags: &[u8], rows: &mut [u8]) -> Called<S>
        ensures { Yields S.units self (call address flags.now rows.old) result rows.new }
    {
        let settings = self.settings;
        match state_at(unit::unit_count(settings), self.due, address) {
            Err(refusal) => self.returned(Err(refusal)),
            Ok(()) => self.returned(reader::read_passed(settings, address, flags, rows)),
        }
    }
}
