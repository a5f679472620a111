// A node at the edge of the picture, by its row.
ghost use Rattle.std.specs.Prelude.{◌≡◌};
ghost use Rattle.tree.specs.Splits.{right_out, bottom_out};
ghost use Rattle.tree.specs.Children.{corner_inside};
ghost use Rattle.nodes.specs.Tables.{limits_in};
ghost use Rattle.nodes.specs.RowNodes.{node_in};

use crate::fields::{height, left, top, width};
use crate::masks::{PICTURE_HEIGHT, PICTURE_WIDTH, Table};

// Whether a node is out of the picture at the right, and at the bottom.
// Stays: two tests of a line each, with the names that H.266 has; over a direction they would pick three things each.
#[tactic(auto, unfolding(crate::specs::RowNodes::node_in))]
pub fn right_out_at(u: &Table, row: u64) -> bool
    ensures { result ≡ right_out (limits_in u.now) (node_in row) }
{
    u[PICTURE_WIDTH] < left(row) + width(row)
}

#[tactic(auto, unfolding(crate::specs::RowNodes::node_in))]
pub fn bottom_out_at(u: &Table, row: u64) -> bool
    ensures { result ≡ bottom_out (limits_in u.now) (node_in row) }
{
    u[PICTURE_HEIGHT] < top(row) + height(row)
}

// Whether a node begins inside the picture.
#[tactic(auto, unfolding(crate::specs::RowNodes::node_in, tree::specs::Children::corner_inside))]
pub fn begins_inside(u: &Table, row: u64) -> bool
    ensures { result ≡ corner_inside (limits_in u.now) (node_in row) }
{
    (left(row) < u[PICTURE_WIDTH]) & (top(row) < u[PICTURE_HEIGHT])
}
