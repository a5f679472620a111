// The state of a session, whatever its settings: whether a unit is due, and the address due after a call.
ghost use Rattle.std.specs.Prelude.{◌≡◌, ℕ, ◌<◌, Ok};
ghost use Rattle.refusals.specs.Said.{said, numbered};
ghost use Rattle.picture.specs.State.{state_of, next_due};

use refusals::{Reason, Refusal};
use unit::Answer;

// Whether a unit call on the unit at an address reads it, by the count of units and the due address: 22, 20, 21 in this
// order where it doesn't.
#[tactic(auto, unfolding(crate::specs::State::state_of))]
pub fn state_at(count: Result<usize, Reason>, due: usize, address: usize) -> Result<(), Refusal>
    ensures { said result ≡ state_of (numbered count) due address }
{
    let Ok(units) = count else {
        return Err(Reason::NoSession.at(0));
    };
    if units < due {
        return Err(Reason::NoSession.at(0));
    }
    if due == units {
        return Err(Reason::Complete.at(0));
    }
    if address != due {
        return Err(Reason::NotDue.at(due));
    }
    Ok(())
}

// The address due after a call with an answer: an accepted unit moves it on.
pub fn next_due(due: usize, answer: Answer) -> usize
    requires { (count : ℕ) → answer ≡ Ok count → due < 1048576 }
    ensures { result ≡ next_due due (said answer) }
{
    match answer {
        Ok(_) => due + 1,
        Err(_) => due,
    }
}
