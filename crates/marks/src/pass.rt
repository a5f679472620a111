// What one pass over the rows of a table finds, so that the decision at a node needs no scan of the rows ahead.
ghost use Rattle.std.specs.Prelude.{◌≡◌, ◌+◌, ◌/◌, ◌%◌, ◌^◌, ◌<◌, ◌≤◌, length, replicate, slice_index};
ghost use Rattle.marks.specs.Marks.{Marked, Read};

use crate::compare::word_at;
use blocks::{ROW_HEIGHT, ROW_WIDTH};
use nodes::Table;

// Of the first 1,024 cells of 16 samples, which are those of a unit at most. Entry i: the cells of the rows before row
// i. Entry 1,024 + c: the corner of the row before which c cells go by, as the low half of the row's number; all ones
// where no row starts there.
// Stays: one array of fixed size, since the library allocates nothing; the definition (`Marked`) is over one list.
pub type Marks = [u32; 2048];

// The cells of a row, 1 at least whatever its bytes are.
fn cells(row: u64) -> u64
    ensures { (result ≡ 2 ^ ((row / 4294967296 + row / 1099511627776 + 12) % 16)) × (0 < result) × (result ≤ 32768) }
{
    1u64 << ((row / ROW_WIDTH + row / ROW_HEIGHT + 12) % 16)
}

// Stays: that the rows are whole is asked: rows and marks are arguments of the way back, which a struct of them makes
// slower (back/src/inside.rt).
// Each row has a cell at least, so the number of rows that are passed is at most that of the cells.
pub(crate) fn mark(rows: &[u8], marks: &mut Marks)
    requires { (length rows.now % 8 ≡ 0) × (marks.old ≡ replicate 2048 4294967295) }
    ensures { Marked rows.now marks.new }
{
    let mut covered = 0;
    for i in 0..rows.len() / 8 {
        if 1024 <= covered {
            return;
        }
        let row = word_at(rows, i * 8);
        marks[i] = covered as u32;
        marks[1024 + covered as usize] = (row % ROW_WIDTH) as u32;
        covered += cells(row);
    }
}

// The marks of the rows of a tree, of which none are needed where no cut may be open.
pub fn mark_tree(u: &Table, rows: &[u8], marks: &mut Marks)
    requires { (length rows.now % 8 ≡ 0) × (marks.old ≡ replicate 2048 4294967295) }
    ensures { Read u.now rows.now marks.new }
{
    if !nodes::may_cut(u) {
        return;
    }
    mark(rows, marks);
}

// The cells before the row at a place.
pub(crate) fn before(marks: &Marks, at: usize) -> u32
    ensures { result ≡ slice_index marks.now (at / 8 % 1024) }
{
    marks[at / 8 % 1024]
}

// The corner of the row before which so many cells go by.
pub(crate) fn starts(marks: &Marks, covered: u32) -> u32
    ensures { result ≡ slice_index marks.now (1024 + covered % 1024) }
{
    marks[1024 + (covered % 1024) as usize]
}
