// One row allowance for a bank of cameras: the grant, by a camera's own account and what is left of the common part.
// The two functions over the lent list of accounts are those of the C interface (crates/colwythar/src/bank_calls.rt).
#![tactic(auto)]

mod accounts;

ghost use Rattle.std.specs.Prelude.{◌≡◌, ◌≤◌};
ghost use Rattle.refusals.specs.Said.{said};
ghost use Rattle.unit.specs.Answers.{Meets};
ghost use Rattle.unit.specs.Luma.{units_of};
ghost use Rattle.picture.specs.State.{call, call_in, Returns};
ghost use Rattle.picture.specs.Session.{unit_call, returned, replied};
ghost use Rattle.bank.specs.Accounts.{left_in};
ghost use Rattle.bank.specs.Granting.{within};
ghost use Rattle.bank.specs.Steps.{judged, Grants};

pub use accounts::{Account, cleared, left_after};
use picture::{Called, Session};
use refusals::{Reason, Refusal};
use settings::Settings;
use unit::Answer;

// What a grant returns: the camera's account afterwards, and what its unit call returns.
#[derive(Clone, Copy)]
pub struct Granted {
    pub account: Account,
    pub called: Called<Settings>,
}

// The answer of a unit call that was lent only as much of a buffer as so many rows take: a table that has no room in that
// part, and has in the buffer, is refused with 36.
#[tactic(auto, unfolding(crate::specs::Steps::judged))]
fn judged(answer: Answer, room: usize, could: usize) -> Answer
    ensures { said result ≡ judged (said answer) room could }
{
    match answer {
        Err(
            Refusal {
                reason: Reason::RowRoom,
                place,
            },
        ) if place <= room / 8 => Err(Reason::Allowance.at(could)),
        _ => answer,
    }
}

// The answer of the unit call on a session of these settings with this address due.
// Stays: `Session::unit` has these steps, too; with a second caller it was not inlined into the plain unit call, and
// one row took 6 ns more (docs/DECISIONS.md).
fn unit_answer(
    settings: Settings,
    due: usize,
    address: usize,
    flags: &[u8],
    rows: &mut [u8],
) -> Answer
    ensures { Meets (call_in (units_of settings) due (call address flags.now rows.old)) (said result) rows.new }
{
    picture::state_at(unit::unit_count(settings), due, address)?;
    reader::read_passed(settings, address, flags, rows)
}

// The unit call of a camera, for which so many rows could be had: it is lent no more of the buffer than that many rows
// take, so the flags are read once, and nothing is written before 36 is passed.
fn unit_within(
    session: Session<Settings>,
    could: usize,
    address: usize,
    flags: &[u8],
    rows: &mut [u8],
) -> Called<Settings>
    requires { could ≤ 4294967295 }
    ensures { Returns (returned session) (within could rows.old (unit_call units_of session (call address flags.now rows.old))) (replied result) rows.new }
{
    let room = rows.len();
    let part = &mut rows[..usize::min(room, 8 * could)];
    let called = unit_answer(session.settings, session.due, address, flags, part);
    let answer = judged(called, room, could);
    Called {
        session: Session {
            due: picture::next_due(session.due, answer),
            ..session
        },
        answer,
    }
}

// The grant on a camera's own account: 38 where the accounts hold more than there is, the unit call's refusals, and
// 36, after 14, where the table has more rows than could be had. A refusal leaves the account, the session and the
// buffer as they were.
pub fn grant(
    left: Option<u64>,
    own: Account,
    session: Session<Settings>,
    address: usize,
    flags: &[u8],
    rows: &mut [u8],
) -> Granted
    ensures { Grants (left_in left) own session (call address flags.now rows.old) result rows.new }
{
    let Some(free) = left else {
        return Granted {
            account: own,
            called: Called {
                session,
                answer: Err(Reason::Overdrawn.at(0)),
            },
        };
    };
    let could = accounts::could_have(free, own);
    let called = unit_within(session, could, address, flags, rows);
    Granted {
        account: accounts::charged(own, called.answer),
        called,
    }
}
