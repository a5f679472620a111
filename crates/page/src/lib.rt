// R-1's partition page of a unit: its rows as text, one row a line, or the way back's refusals 1 to 10, 15, 27, 28
// and 16, then 23.
#![tactic(auto)]

mod columns;
mod lines;
mod text;

ghost use Rattle.std.specs.Prelude.{◌≤◌, ◌<◌, length};
ghost use Rattle.refusals.specs.Said.{said};
ghost use Rattle.tree.specs.Rows.{rows_in};
ghost use Rattle.laws.specs.Every.{Every};
ghost use Rattle.laws.specs.Geometry.{SmallRow};
ghost use Rattle.unit.specs.Answers.{Meets, deliver};
ghost use Rattle.page.specs.Page.{page_text, write_page};

use refusals::Reason;
use settings::Settings;
use unit::Answer;

// The lines of rows that passed the test, or refusal 23.
#[tactic(auto, using(crate::proofs::Passing::page_short, crate::proofs::Passing::page_done))]
fn print(address: usize, rows: &[u8], page: &mut [u8]) -> Answer
    requires { (address < 1000000) × (length rows.now ≤ 8192) × Every SmallRow (rows_in rows.now) }
    ensures { Meets (deliver 23 (length (page_text address rows.now)) (page_text address rows.now) page.old) (said result) page.new }
{
    let n = rows.len() / 8 * 33;
    if page.len() < n {
        return Err(Reason::PageRoom.at(n));
    }
    lines::put_lines(address as u32, rows, page);
    Ok(n)
}

// Prints the rows of the unit at an address: answers the number of bytes, which are then the first of the page, or a
// refusal, which leaves the page as it was.
#[tactic(auto, using(crate::proofs::Passing::accepted_rows, crate::proofs::Passing::page_refused, crate::proofs::Passing::page_printed))]
pub fn write_page(s: Settings, address: usize, rows: &[u8], page: &mut [u8]) -> Answer
    ensures { Meets (write_page s address rows.now page.old) (said result) page.new }
{
    writer::test_unit(s, address, rows)?;
    print(address, rows, page)
}
