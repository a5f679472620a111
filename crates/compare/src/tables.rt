// Whether one table is finer than another or equal, by the map of the other's rows: each of its rows must lie inside
// the block that has its corner.
ghost use Rattle.std.specs.Prelude.{◌≡◌, ◌≤◌, ◌<◌, length};
ghost use Rattle.tree.specs.Rows.{rows_in};
ghost use Rattle.nodes.specs.RowNodes.{node_in};
ghost use Rattle.cells.specs.Held.{filled_by};
ghost use Rattle.compare.specs.Finer.{span_in, finer_or_equal};
ghost use Rattle.compare.specs.Tests.{node_inside, corners_inside, Tiles, Comparable};

use cells::Map;

// Whether l samples from a on lie among the m from b on.
fn among(a: u32, l: u32, b: u32, m: u32) -> bool
    requires { (a < 65536) × (l ≤ 128) × (b < 65536) × (m ≤ 128) }
    ensures { result ≡ span_in a l b m }
{
    (b <= a) & (a + l <= b + m)
}

// Whether a row's block lies inside another's.
#[tactic(auto, unfolding(nodes::specs::RowNodes::node_in))]
fn inside(row: u64, block: u64) -> bool
    ensures { result ≡ node_inside (node_in row) (node_in block) }
{
    among(
        nodes::left(row),
        nodes::width(row),
        nodes::left(block),
        nodes::width(block),
    ) & among(
        nodes::top(row),
        nodes::height(row),
        nodes::top(block),
        nodes::height(block),
    )
}

// The rows of a table into the map of its unit.
#[tactic(auto, using(crate::proofs::Passing::fill_next, crate::proofs::Passing::fill_last))]
fn fill_table(map: &mut Map, rows: &[u8])
    requires { (length map.old ≡ 1024) × Tiles (rows_in rows.now) }
    ensures { map.new ≡ filled_by map.old (rows_in rows.now) }
{
    for k in 0..rows.len() / 8 {
        cells::fill(map, marks::word_at(rows, k * 8));
    }
}

// Whether each row of a table lies inside the block that the map has at its corner.
#[tactic(auto, using(crate::proofs::Passing::corner_out, crate::proofs::Passing::corner_in, crate::proofs::Passing::corner_last))]
fn corners_inside(rows: &[u8], map: &Map) -> bool
    ensures { result ≡ corners_inside map.now (rows_in rows.now) }
{
    for k in 0..rows.len() / 8 {
        let row = marks::word_at(rows, k * 8);
        if !inside(row, cells::at_corner(map, row)) {
            return false;
        }
    }
    true
}

// Whether a table is finer than another of the same unit, or equal.
#[tactic(auto, using(crate::proofs::Corners::map_finer))]
pub(crate) fn finer_or_equal(rows: &[u8], others: &[u8]) -> bool
    requires { Comparable (rows_in rows.now) (rows_in others.now) }
    ensures { result ≡ finer_or_equal (rows_in rows.now) (rows_in others.now) }
{
    let mut map: Map = [0; 1024];
    fill_table(&mut map, others);
    corners_inside(rows, &map)
}
