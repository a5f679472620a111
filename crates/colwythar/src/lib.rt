// The C interface: the functions of the static library, declared in include/colwythar.h. A slice is a pointer and then
// a length; settings, answers and the due address are behind pointers.
#![tactic(auto)]

mod bank_calls;
mod h265_calls;

ghost use Rattle.std.specs.Prelude.{◌≡◌};
ghost use Rattle.refusals.specs.Said.{said};
ghost use Rattle.settings.specs.Units.{counted_by, count_of};
ghost use Rattle.settings.specs.Words.{settings_in};
ghost use Rattle.unit.specs.Luma.{units_of};
ghost use Rattle.unit.specs.Reader.{read_unit};
ghost use Rattle.unit.specs.Writer.{write_flags};
ghost use Rattle.page.specs.Page.{write_page};
ghost use Rattle.compare.specs.Compare.{compare_unit};
ghost use Rattle.picture.specs.State.{call};
ghost use Rattle.picture.specs.Session.{opening, opened_number};
ghost use Rattle.colwythar.specs.Words.{answer_words, due_after, count_words, Leaves, OpensTo, Moves};

// Stays: each call of the C interface is a function of its own, with arguments in C's order.
use picture::Session;
use settings::Settings;
use unit::{Answer, Coding};

// The words of an answer: 0 and what is answered, or the number and the place of a refusal.
pub(crate) fn put_answer(a: Answer, answer: &mut [u64; 2])
    ensures { answer.new ≡ answer_words (said a) }
{
    *answer = match a {
        Ok(given) => [0, given as u64],
        Err(refusal) => [refusal.reason.number() as u64, refusal.place as u64],
    };
}

// Reads the flags of a unit into the row buffer: refusals 1 to 14, or the number of rows.
#[unsafe(no_mangle)]
pub extern "C" fn colwythar_read_unit(
    settings: &[u32; 8],
    address: u64,
    flags: &[u8],
    rows: &mut [u8],
    answer: &mut [u64; 2],
)
    ensures { Leaves (read_unit (settings_in settings.now) address flags.now rows.old) answer.new rows.new }
{
    let s = Settings::from(*settings);
    let a = reader::read_unit(s, address as usize, flags, rows);
    put_answer(a, answer);
}

// Turns the rows of a unit back into the flag buffer: refusals 1 to 10, 15, 27, 28, 16 and 17, or the
// number of flags.
#[unsafe(no_mangle)]
pub extern "C" fn colwythar_write_flags(
    settings: &[u32; 8],
    address: u64,
    rows: &[u8],
    flags: &mut [u8],
    answer: &mut [u64; 2],
)
    ensures { Leaves (write_flags (settings_in settings.now) address rows.now flags.old) answer.new flags.new }
{
    let s = Settings::from(*settings);
    let a = writer::write_flags(s, address as usize, rows, flags);
    put_answer(a, answer);
}

// Prints the rows of a unit on the lent page, one row a line: refusals 1 to 10, 15, 27, 28, 16
// and 23, or the number of bytes.
#[unsafe(no_mangle)]
pub extern "C" fn colwythar_page(
    settings: &[u32; 8],
    address: u64,
    rows: &[u8],
    page: &mut [u8],
    answer: &mut [u64; 2],
)
    ensures { Leaves (write_page (settings_in settings.now) address rows.now page.old) answer.new page.new }
{
    let s = Settings::from(*settings);
    let a = page::write_page(s, address as usize, rows, page);
    put_answer(a, answer);
}

// The answer of a comparison. It stands for itself so that the compiler meets the comparison after the calls that read, and
// keeps the search as it was (docs/DECISIONS.md).
fn tables_compared(settings: &[u32; 8], address: u64, first: &[u8], second: &[u8]) -> Answer
    ensures { said result ≡ compare_unit (settings_in settings.now) address first.now second.now }
{
    let s = Settings::from(*settings);
    compare::compare_unit(s, address as usize, first, second)
}

// Compares two tables of a unit: refusals 1 to 10, then 15, 27, 28 and 16 of the first, then of the second, or 0 to 3: equal
// blocks, the first finer, the second finer, neither.
#[unsafe(no_mangle)]
pub extern "C" fn colwythar_compare(
    settings: &[u32; 8],
    address: u64,
    first: &[u8],
    second: &[u8],
    answer: &mut [u64; 2],
)
    ensures { answer.new ≡ answer_words (compare_unit (settings_in settings.now) address first.now second.now) }
{
    let a = tables_compared(settings, address, first, second);
    put_answer(a, answer);
}

// An opening with settings of any coding: its words, and the address due after it.
pub(crate) fn open_session<S: Coding>(settings: S, due: &mut u64, answer: &mut [u64; 2])
    ensures { OpensTo (opened_number (opening S.units settings)) (due_after (opening S.units settings) due.old) due.new answer.new }
{
    match Session::open(settings) {
        Ok(session) => {
            *due = session.due as u64;
            *answer = [0, 0];
        }
        Err(reason) => *answer = [reason.number() as u64, 0],
    }
}

// Opens the session of a picture: refusals 1 to 9, or 0. The session is the settings and the due address, which an
// accepted opening sets.
#[unsafe(no_mangle)]
pub extern "C" fn colwythar_open(settings: &[u32; 8], due: &mut u64, answer: &mut [u64; 2])
    ensures { OpensTo (opened_number (opening units_of (settings_in settings.now))) (due_after (opening units_of (settings_in settings.now)) due.old) due.new answer.new }
{
    open_session(Settings::from(*settings), due, answer);
}

// How many units a picture has with settings of any coding, as words.
pub(crate) fn count_units<S: Coding>(settings: S, answer: &mut [u64; 2])
    ensures { answer.new ≡ count_words (counted_by (S.units settings).refusal (S.units settings).count) }
{
    *answer = match unit::unit_count(settings) {
        Ok(n) => [0, n as u64],
        Err(reason) => [reason.number() as u64, 0],
    };
}

// How many units a picture has: refusals 1 to 9, or the number of units.
#[unsafe(no_mangle)]
pub extern "C" fn colwythar_unit_count(settings: &[u32; 8], answer: &mut [u64; 2])
    ensures { answer.new ≡ count_words (count_of (settings_in settings.now)) }
{
    count_units(Settings::from(*settings), answer);
}

// The unit call on the session of settings of any coding and the due address: its words, and the address due after it.
pub(crate) fn call_unit<S: Coding>(
    settings: S,
    due: &mut u64,
    address: u64,
    flags: &[u8],
    rows: &mut [u8],
    answer: &mut [u64; 2],
)
    ensures { Moves (S.units settings) due.old (call address flags.now rows.old) due.new answer.new rows.new }
{
    let session = Session {
        settings,
        due: *due as usize,
    };
    let called = session.unit(address as usize, flags, rows);
    *due = called.session.due as u64;
    put_answer(called.answer, answer);
}

// The unit call on the session of these settings and the due address: refusals 22, 20, 21 and 11 to 14, or the number
// of rows. The due address is moved on by an accepted call.
#[unsafe(no_mangle)]
pub extern "C" fn colwythar_unit(
    settings: &[u32; 8],
    due: &mut u64,
    address: u64,
    flags: &[u8],
    rows: &mut [u8],
    answer: &mut [u64; 2],
)
    ensures { Moves (units_of (settings_in settings.now)) due.old (call address flags.now rows.old) due.new answer.new rows.new }
{
    call_unit(Settings::from(*settings), due, address, flags, rows, answer);
}
