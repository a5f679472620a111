// The accounts of a bank of cameras, one at a time: what an account holds of the rows that all cameras share, and how
// many its camera could have.
ghost use Rattle.std.specs.Prelude.{◌≡◌, ℕ, ◌+◌, ◌-◌, ◌≤◌, Ok};
ghost use Rattle.refusals.specs.Said.{said};
ghost use Rattle.bank.specs.Accounts.{left_in, cleared, unused, held, could, charged};
ghost use Rattle.bank.specs.Steps.{left_after};

use unit::Answer;

// A camera's account: its reserved share, and the rows used since the last new period. A caller lends a list of them.
#[repr(C)]
#[derive(Clone, Copy)]
pub struct Account {
    pub share: u32,
    pub used: u32,
}

// The account in a new period.
pub fn cleared(a: Account) -> Account
    ensures { result ≡ cleared a }
{
    Account { used: 0, ..a }
}

// What an account holds of the limit: its share, and the use beyond it.
fn held(a: Account) -> u64
    ensures { result ≡ held a }
{
    u32::max(a.share, a.used) as u64
}

// What is left of the common part after one more account; none where the accounts hold more than there is.
pub fn left_after(left: Option<u64>, a: Account) -> Option<u64>
    ensures { left_in result ≡ left_after (left_in left) a }
{
    left?.checked_sub(held(a))
}

// How many rows a camera could have, by its account and what is left of the common part.
pub(crate) fn could_have(left: u64, a: Account) -> usize
    ensures { result ≡ could left a }
{
    let n = held(a);
    let unused = n - a.used as u64;
    (unused + u64::min(left, u32::MAX as u64 - n)) as usize
}

// The account after a grant with an answer.
pub(crate) fn charged(a: Account, answer: Answer) -> Account
    requires { (count : ℕ) → answer ≡ Ok count → count ≤ unused a + (4294967295 - held a) }
    ensures { result ≡ charged a (said answer) }
{
    match answer {
        Ok(count) => Account {
            used: a.used + count as u32,
            ..a
        },
        Err(_) => a,
    }
}
