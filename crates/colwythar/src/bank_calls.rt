// The C interface to a bank of cameras: the grant and the new period on a lent list of accounts. These two are the only
// functions over that list; what they do with an account is crate bank's, by value.
ghost use Rattle.std.specs.Prelude.{◌≡◌};
ghost use Rattle.settings.specs.Words.{settings_in};
ghost use Rattle.unit.specs.Luma.{units_of};
ghost use Rattle.picture.specs.State.{call};
ghost use Rattle.bank.specs.Accounts.{left_in};
ghost use Rattle.bank.specs.Bank.{new_period};
ghost use Rattle.colwythar.specs.BankWords.{ChargesOne, Charges};

use crate::put_answer;
use bank::Account;
use picture::Session;
use refusals::Reason;
use settings::Settings;

// The grant on the camera's own account, by what is left of the common part: the account afterwards.
fn grant_unit(
    left: Option<u64>,
    own: Account,
    settings: &[u32; 8],
    due: &mut u64,
    address: u64,
    flags: &[u8],
    rows: &mut [u8],
    answer: &mut [u64; 2],
) -> Account
    ensures { ChargesOne (left_in left) own (units_of (settings_in settings.now)) due.old (call address flags.now rows.old) result due.new answer.new rows.new }
{
    let session = Session {
        settings: Settings::from(*settings),
        due: *due as usize,
    };
    let granted = bank::grant(left, own, session, address as usize, flags, rows);
    *due = granted.called.session.due as u64;
    put_answer(granted.called.answer, answer);
    granted.account
}

// The unit call of a camera, whose table is granted where the accounts and the limit leave it room: refusals 37, 38,
// then 22, 20, 21 and 11 to 14, then 36, or the number of rows. An accepted call moves the due address on and charges
// the camera's account.
#[unsafe(no_mangle)]
pub extern "C" fn colwythar_grant(
    settings: &[u32; 8],
    due: &mut u64,
    address: u64,
    flags: &[u8],
    rows: &mut [u8],
    accounts: &mut [Account],
    camera: usize,
    limit: u64,
    answer: &mut [u64; 2],
)
    ensures { Charges (units_of (settings_in settings.now)) due.old limit accounts.old camera (call address flags.now rows.old) due.new answer.new rows.new accounts.new }
{
    if accounts.len() <= camera {
        put_answer(Err(Reason::NoAccount.at(0)), answer);
        return;
    }
    let mut left = Some(limit);
    for a in accounts.iter() {
        left = bank::left_after(left, *a);
    }
    let own = accounts[camera];
    accounts[camera] = grant_unit(left, own, settings, due, address, flags, rows, answer);
}

// Begins a new period: no account has used a row.
#[unsafe(no_mangle)]
pub extern "C" fn colwythar_new_period(accounts: &mut [Account])
    ensures { accounts.new ≡ new_period accounts.old }
{
    for a in accounts.iter_mut() {
        *a = bank::cleared(*a);
    }
}
