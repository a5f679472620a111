// Where a walk is, as one number: the next place of what it reads and how many it has given so far, or a refusal's
// number and place. The walks call each other with it and return it, since one number is passed in a register.
// Stays: one number; as a result, which comes back in two registers, a walk takes 6 to 8 % more instructions.
ghost use Rattle.std.specs.Prelude.{◌≡◌, ◌+◌, ◌*◌, ◌%◌, ◌^◌, ◌<◌, if◌then◌else◌, nat_lt, Ok, Err};
ghost use Rattle.refusals.specs.Numbers.{number};
ghost use Rattle.nodes.specs.State as State;

use refusals::Reason;

// What 1 in the count is in the number, and the least number of a refusal.
const COUNT: u64 = 4294967296;

const REFUSED: u64 = 9223372036854775808;

// A child's answer: it was walked and the walk goes on from there, or it was refused.
pub fn child_answer(answer: u64) -> Result<u64, u64>
    ensures { result ≡ (if nat_lt answer 9223372036854775808 then Ok answer else Err answer) }
{
    if answer < REFUSED {
        Ok(answer)
    } else {
        Err(answer)
    }
}

// The place and the count of a walk that goes on.
pub fn place(c: u64) -> usize
    ensures { (result ≡ State.place_of c) × (result < 4294967296) }
{
    (c % COUNT) as usize
}

pub fn count(c: u64) -> usize
    ensures { (result ≡ State.given_of c) × (result < 4294967296) }
{
    (c / COUNT) as usize
}

// A walk at a place, after so many.
pub fn position(place: usize, count: usize) -> u64
    ensures { result ≡ place % 4294967296 + count % 4294967296 * 4294967296 }
{
    (place % 4294967296) as u64 + (count % 4294967296) as u64 * COUNT
}

// The same walk so many places further.
pub fn further(c: u64, by: u64) -> u64
    ensures { result ≡ (c + by) % 2 ^ 64 }
{
    c.wrapping_add(by)
}

// The same walk at another place.
pub fn moved_to(c: u64, next: usize) -> u64
    ensures { (result + State.place_of c) % 2 ^ 64 ≡ (c + next) % 2 ^ 64 }
{
    c.wrapping_add((next as u64).wrapping_sub(place(c) as u64))
}

// The same walk after one more that is given.
pub fn one_more(c: u64) -> u64
    ensures { result ≡ (c + 4294967296) % 2 ^ 64 }
{
    further(c, COUNT)
}

// A walk that is refused.
pub fn refusal(reason: Reason, place: usize) -> u64
    ensures { result ≡ State.refusal (number reason % 32) (place % 288230376151711744) }
{
    let number = reason.number();
    REFUSED + (place % 288230376151711744) as u64 * 32 + (number % 32) as u64
}

// Stays: the number, for the reasons that a walk can have are its reader's to tell (`walk_refusal`, reader/src/deliver.rt).
// The number and the place of its refusal.
pub fn refusal_number(c: u64) -> u32
    ensures { result ≡ State.refusal_number c }
{
    (c % 32) as u32
}

pub fn refusal_place(c: u64) -> usize
    ensures { result ≡ State.refusal_place c }
{
    (c % REFUSED / 32) as usize
}
