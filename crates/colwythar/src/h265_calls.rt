// The C interface for H.265 pictures: four settings in place of eight.
ghost use Rattle.std.specs.Prelude.{◌≡◌};
ghost use Rattle.picture.specs.State.{call};
ghost use Rattle.h265settings.specs.Units.{units_of, count_of};
ghost use Rattle.h265settings.specs.Words.{settings_in};
ghost use Rattle.h265.specs.Calls.{read_unit, write_flags};
ghost use Rattle.picture.specs.Session.{opening, opened_number};
ghost use Rattle.colwythar.specs.Words.{due_after, count_words, Leaves, OpensTo, Moves};

// Stays: each call of the C interface is a function of its own, with arguments in C's order.
use crate::{call_unit, count_units, open_session, put_answer};
use h265settings::Settings;

// Reads the flags of a unit into the row buffer: refusals 34, 35, 7, 8 and 10 to 14, or the number of rows.
#[unsafe(no_mangle)]
pub extern "C" fn colwythar_h265_read_unit(
    settings: &[u32; 4],
    address: u64,
    flags: &[u8],
    rows: &mut [u8],
    answer: &mut [u64; 2],
)
    ensures { Leaves (read_unit (settings_in settings.now) address flags.now rows.old) answer.new rows.new }
{
    let s = Settings::from(*settings);
    let a = reader::read_unit(s, address as usize, flags, rows);
    put_answer(a, answer);
}

// Turns the rows of a unit back into the flag buffer: refusals 34, 35, 7, 8, 10, 15, 27, 28, 16 and 17, or the number of
// flags.
#[unsafe(no_mangle)]
pub extern "C" fn colwythar_h265_write_flags(
    settings: &[u32; 4],
    address: u64,
    rows: &[u8],
    flags: &mut [u8],
    answer: &mut [u64; 2],
)
    ensures { Leaves (write_flags (settings_in settings.now) address rows.now flags.old) answer.new flags.new }
{
    let s = Settings::from(*settings);
    let a = h265::write_flags(s, address as usize, rows, flags);
    put_answer(a, answer);
}

// Opens the session of a picture: refusals 34, 35, 7 and 8, or 0. The session is the settings and the due address, which an
// accepted opening sets.
#[unsafe(no_mangle)]
pub extern "C" fn colwythar_h265_open(settings: &[u32; 4], due: &mut u64, answer: &mut [u64; 2])
    ensures { OpensTo (opened_number (opening units_of (settings_in settings.now))) (due_after (opening units_of (settings_in settings.now)) due.old) due.new answer.new }
{
    open_session(Settings::from(*settings), due, answer);
}

// How many units a picture has: refusals 34, 35, 7 and 8, or the number of units.
#[unsafe(no_mangle)]
pub extern "C" fn colwythar_h265_unit_count(settings: &[u32; 4], answer: &mut [u64; 2])
    ensures { answer.new ≡ count_words (count_of (settings_in settings.now)) }
{
    count_units(Settings::from(*settings), answer);
}

// The unit call on the session of these settings and the due address: refusals 22, 20, 21 and 11 to 14, or the number
// of rows. The due address is moved on by an accepted call.
#[unsafe(no_mangle)]
pub extern "C" fn colwythar_h265_unit(
    settings: &[u32; 4],
    due: &mut u64,
    address: u64,
    flags: &[u8],
    rows: &mut [u8],
    answer: &mut [u64; 2],
)
    ensures { Moves (units_of (settings_in settings.now)) due.old (call address flags.now rows.old) due.new answer.new rows.new }
{
    call_unit(Settings::from(*settings), due, address, flags, rows, answer);
}
