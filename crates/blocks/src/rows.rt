// A leaf's row: one number of 64 bits, whose bytes, the lowest first, are the row's 8 bytes.
ghost use Rattle.std.specs.Prelude.{◌≡◌, ◌+◌, ◌%◌, ◌<◌, ◌≤◌, length};
ghost use Rattle.std.proofs.lemmas.List.Edits.{sets};
ghost use Rattle.sides.specs.Side.{exponent};
ghost use Rattle.tree.specs.Rows.{row_of};
ghost use Rattle.blocks.specs.RowNumbers.{row_word, word_bytes, Put};

use tree::Node;

// Where the fields of a row stand in its number, by bits: X lowest, then Y,
pub const X_PLACE: u32 = 0;

pub const Y_PLACE: u32 = 16;
// the exponents of its width and of its height,
pub const WIDTH_PLACE: u32 = 32;

pub const HEIGHT_PLACE: u32 = 40;
// and what 1 in each field is in the number: Y,
pub const ROW_Y: u64 = 1 << Y_PLACE;
// the exponents,
pub const ROW_WIDTH: u64 = 1 << WIDTH_PLACE;

pub const ROW_HEIGHT: u64 = 1 << HEIGHT_PLACE;
// the QT depth
pub const ROW_QT: u64 = 1 << 48;
// and the MTT depth.
pub const ROW_MTT: u64 = 1 << 56;

// The exponent of a side, which a row stores in a byte.
fn stored_exponent(side: u32) -> u64
    ensures { (result ≡ exponent side % 256) × (result < 256) }
{
    u64::from(sides::exponent(side))
}

// The row of a node as one number: X and Y of 16 bits, the sides' exponents and the two depths of 8 bits each.
pub fn row_word(n: Node) -> u64
    ensures { result ≡ row_word (row_of n) }
{
    let corner = u64::from(n.x % 65536) + u64::from(n.y % 65536) * ROW_Y;
    let exponents = stored_exponent(n.w) + stored_exponent(n.h) * 256;
    let depths = u64::from(n.qt % 256) + u64::from(n.mtt % 256) * 256;
    corner + exponents * ROW_WIDTH + depths * ROW_QT
}

// Stores the 8 bytes of a number at a place of a buffer.
pub(crate) fn store_word(rows: &mut [u8], at: usize, word: u64)
    requires { at + 8 ≤ length rows.old }
    ensures { rows.new ≡ sets rows.old at (word_bytes word) }
{
    rows[at..at + 8].copy_from_slice(&word.to_le_bytes());
}

// Writes a row at a place of a buffer and answers true; where the buffer has no 8 bytes there, it stays as it is
// and the answer is false.
pub fn put_row(rows: &mut [u8], at: usize, word: u64) -> bool
    ensures { Put rows.old at word result rows.new }
{
    if rows.len().saturating_sub(at) < 8 {
        return false;
    }
    store_word(rows, at, word);
    true
}
