// A unit's map: 1,024 cells of 4 by 4 samples, 32 a line, filled row by row; each cell holds the row, as one number, of
// the block that it lies in.
#![tactic(auto)]

ghost use Rattle.std.specs.Prelude.{◌≡◌, ◌+◌, ◌≤◌, ◌<◌, length, get_or, replicate};
ghost use Rattle.std.proofs.lemmas.List.Edits.{sets};
ghost use Rattle.nodes.specs.RowNodes.{node_in};
ghost use Rattle.cells.specs.Map.{cell_at, Inside, filled};

// Stays: an array of fixed size, since the library allocates nothing.
pub type Map = [u64; 1024];

// The cell of a row's corner. A unit lies at multiples of its side, which is 128 at most, so that no two of its cells
// have one number.
#[tactic(auto, unfolding(nodes::specs::RowNodes::node_in))]
fn corner_cell(row: u64) -> usize
    ensures { (result ≡ cell_at (node_in row).x (node_in row).y) × (result < 1024) }
{
    (nodes::top(row) / 4 % 32 * 32 + nodes::left(row) / 4 % 32) as usize
}

// The row of the block that has the corner of a row.
pub fn at_corner(map: &Map, row: u64) -> u64
    ensures { result ≡ get_or map.now (cell_at (node_in row).x (node_in row).y) 0 }
{
    map[corner_cell(row)]
}

// So many cells of one line.
fn fill_line(map: &mut Map, at: usize, wide: usize, row: u64)
    requires { at + wide ≤ 1024 }
    ensures { map.new ≡ sets map.old at (replicate wide row) }
{
    map[at..at + wide].fill(row);
}

// The cells of a row, line by line.
pub fn fill(map: &mut Map, row: u64)
    requires { (length map.old ≡ 1024) × Inside (node_in row) }
    ensures { map.new ≡ filled map.old row }
{
    let wide = (nodes::width(row) / 4) as usize;
    let high = (nodes::height(row) / 4) as usize;
    let corner = corner_cell(row);
    for k in 0..high {
        fill_line(map, corner + k * 32, wide, row);
    }
}
