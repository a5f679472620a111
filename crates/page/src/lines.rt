// The lines of a page, one for each row of a table.
ghost use Rattle.std.specs.Prelude.{◌≡◌, ◌++◌, ◌+◌, ◌*◌, ◌/◌, ◌≤◌, ◌<◌, length, get_or, drop};
ghost use Rattle.std.proofs.lemmas.List.Edits.{sets};
ghost use Rattle.tree.specs.Rows.{row_at, rows_in};
ghost use Rattle.laws.specs.Every.{Every};
ghost use Rattle.laws.specs.Geometry.{SmallRow};
ghost use Rattle.page.specs.Lines.{row_columns, lines};
ghost use Rattle.page.specs.Text.{six_bytes};

use crate::columns::{put_depth, put_side, put_six};
use crate::text::six;

// A place of two bytes of a table, low byte first.
fn two_bytes(rows: &[u8], i: usize) -> u32
    requires { i + 1 < length rows.now }
    ensures { (result ≡ get_or rows.now i 0 + 256 * get_or rows.now (i + 1) 0) × (result < 65536) }
{
    u32::from(u16::from_le_bytes([rows[i], rows[i + 1]]))
}

// The line of the row whose bytes start at a place; the address is given as text in 6 columns.
#[tactic(auto, unfolding(tree::specs::Rows::row_at))]
fn put_line(page: &mut [u8], at: usize, address: u64, rows: &[u8], i: usize)
    requires { (at + 33 ≤ length page.old) × (i + 8 ≤ length rows.now) × SmallRow (row_at rows.now i) }
    ensures { page.new ≡ sets page.old at (six_bytes address ++ row_columns (row_at rows.now i)) }
{
    put_six(page, at, address);
    put_six(page, at + 6, six(two_bytes(rows, i)));
    put_six(page, at + 12, six(two_bytes(rows, i + 2)));
    put_side(page, at + 18, rows[i + 4]);
    put_side(page, at + 22, rows[i + 5]);
    put_depth(page, at + 26, rows[i + 6]);
    put_depth(page, at + 29, rows[i + 7]);
    page[at + 32] = 10;
}

// The lines of all rows, at the front of a page.
#[tactic(auto, using(crate::proofs::Stores::row_small))]
pub(crate) fn put_lines(address: u32, rows: &[u8], page: &mut [u8])
    requires { (address < 1000000) × (33 * (length rows.now / 8) ≤ length page.old) × Every SmallRow (rows_in rows.now) }
    ensures { page.new ≡ lines address (rows_in rows.now) ++ drop (33 * (length rows.now / 8)) page.old }
{
    let text = six(address);
    for k in 0..rows.len() / 8 {
        put_line(page, k * 33, text, rows, k * 8);
    }
}
