// The parts of a decision, one by one.
ghost use Rattle.std.specs.Prelude.{◌≡◌, ◌≤◌, ◌<◌, length};
ghost use Rattle.tree.specs.Children.{shares};
ghost use Rattle.nodes.specs.RowNodes.{cuts_of};
ghost use Rattle.search.specs.Walking.{left_to};

use nodes::Table;
use tree::{CUTS, Decision, Direction};

// How many parts a decision has.
#[tactic(auto, unfolding(tree::specs::Children::shares))]
pub(crate) fn parts(d: Decision) -> u32
    ensures { (result ≡ length (shares d)) × (result ≤ 4) }
{
    match d {
        Decision::Leaf => 0,
        Decision::Quad => 4,
        Decision::Binary(_) => 2,
        Decision::Ternary(_) => 3,
    }
}

// The cuts of a ternary part: the middle one is without the binary cut of its parent's direction.
fn part_cuts(v: Direction, i: u32) -> u32
    ensures { (result ≡ cuts_of v i) × (result < 32) }
{
    if i == 1 {
        return nodes::middle_cuts(v);
    }
    CUTS
}

// What the depths leave to the part with a number, of a node that is out of the picture or inside.
#[tactic(auto, unfolding(crate::specs::Walking::left_to))]
pub(crate) fn left_to(u: &Table, row: u64, depths: u32, out: bool, d: Decision, i: u32) -> u32
    ensures { result ≡ left_to u.now row depths out d i }
{
    match d {
        Decision::Leaf => 0,
        Decision::Quad => nodes::depth_above(u),
        Decision::Binary(_) => {
            if out {
                nodes::depth_below(u, row, depths)
            } else {
                nodes::depth_beside(u, row, depths, CUTS)
            }
        }
        Decision::Ternary(v) => nodes::depth_beside(u, row, depths, part_cuts(v, i)),
    }
}
