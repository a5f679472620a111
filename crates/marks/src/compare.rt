// The next row of a table, compared with a node's own.
ghost use Rattle.std.specs.Prelude.{◌≡◌, ◌+◌, ◌%◌, ◌<◌, ◌≤◌, length, slice_index};
ghost use Rattle.marks.specs.Table.{word_at, Eight, Same};

// The 8 bytes from a place on as one number, low byte first.
pub fn word_at(rows: &[u8], i: usize) -> u64
    requires { i + 8 ≤ length rows.now }
    ensures { (result ≡ word_at rows.now i) × Eight rows.now i }
{
    u64::from_le_bytes([
        rows[i],
        rows[i + 1],
        rows[i + 2],
        rows[i + 3],
        rows[i + 4],
        rows[i + 5],
        rows[i + 6],
        rows[i + 7],
    ])
}

// Whether the row at a place, if there is one, is a node's, given as one number.
pub fn same_row(rows: &[u8], at: usize, row: u64) -> bool
    requires { (length rows.now % 8 ≡ 0) × (at % 8 ≡ 0) }
    ensures { Same rows.now at row result }
{
    at < rows.len() && word_at(rows, at) == row
}
