// The open splits of a node, by the masks of its sides and of its area.
ghost use Rattle.std.specs.Prelude.{◌≡◌, ◌≤◌};
ghost use Rattle.nodes.specs.RowNodes.{inner_in, edge_cut, out_in};

use crate::fields::{height_exponent, width_exponent};
use crate::masks::{AREA_MASKS, HEIGHT_MASKS, Table, WIDTH_MASKS};
use tree::{BH, BV, QT};

// Inside the picture: of these splits, those that the masks leave.
pub fn inner_splits(u: &Table, row: u64, splits: u32) -> u32
    ensures { result ≡ inner_in u.now row splits }
{
    let w = width_exponent(row) as usize;
    let h = height_exponent(row) as usize;
    splits & u[WIDTH_MASKS + w] & u[HEIGHT_MASKS + h] & u[AREA_MASKS + (w + h)]
}

// The binary cut that may be open at a node that is out: a horizontal one at the bottom, else a vertical one; none in
// the picture's corner while the node may be split into four.
fn edge_cut(u: &Table, row: u64, right: bool, bottom: bool) -> u32
    ensures { (result ≡ edge_cut u.now row right bottom) × (result ≤ 4) }
{
    if bottom {
        if right & (u[WIDTH_MASKS + width_exponent(row) as usize] & QT != 0) {
            0
        } else {
            BH
        }
    } else {
        BV
    }
}

// The open splits of a node that is out.
pub fn out_splits(u: &Table, row: u64, depths: u32, right: bool, bottom: bool) -> u32
    ensures { result ≡ out_in u.now row depths right bottom }
{
    inner_splits(u, row, depths) & (QT + edge_cut(u, row, right, bottom))
}
