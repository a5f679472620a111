// H.265 pictures: what is proved of them, and the way back of a unit. The settings are H.265's own; the trees and the
// walks are those of H.266, and the reading and the picture session are those of all codings (`reader::read_unit`,
// `picture::Session`).
#![tactic(auto)]

ghost use Rattle.refusals.specs.Said.{said};
ghost use Rattle.unit.specs.Answers.{Meets};
ghost use Rattle.h265.specs.Calls.{write_flags};

use h265settings::Settings;
use unit::Answer;

// Turns the rows of the unit at an address back: answers the number of its flags, which are then the first bytes of the
// flag buffer, or a refusal, 34, 35, 7, 8, 10, 15, 27, 28, 16 and 17, which leaves the buffer as it was.
pub fn write_flags(s: Settings, address: usize, rows: &[u8], flags: &mut [u8]) -> Answer
    ensures { Meets (write_flags s address rows.now flags.old) (said result) flags.new }
{
    writer::write_checked(s, address, rows, flags)
}
