// The splits that are left to the children of a node: inside the picture their open splits, out of it what their depths
// leave, and their offset F.
ghost use Rattle.std.specs.Prelude.{◌≡◌, ◌<◌, ◌≤◌, nat_lt};
ghost use Rattle.nodes.specs.Tables.{limits_in};
ghost use Rattle.nodes.specs.RowNodes.{bound_in, open_below, cuts_of, depth_above, depth_at, depth_below, depth_beside};

use crate::fields::mtt_depth;
use crate::masks::{DEPTH_BOUND, Table};
use crate::open::inner_splits;
use blocks::ROW_MTT;
use tree::{BH, BV, CUTS, Direction, QT};

// What 1 of the offset F is in what the depths leave to a node that may be out, above the masks of the five splits.
const OFFSET: u32 = 64;

// M, the bound of the MTT depth.
fn depth_bound(u: &Table) -> u32
    ensures { result ≡ (limits_in u.now).maxmtt }
{
    u[DEPTH_BOUND]
}

// Whether a cut may be open anywhere in the tree: M is not 0.
pub fn may_cut(u: &Table) -> bool
    ensures { result ≡ nat_lt 0 (limits_in u.now).maxmtt }
{
    0 < depth_bound(u)
}

// M + F, the bound of the MTT depth, where that depth stands in a row's number: a child whose row is below it may be
// cut. A depth is 255 at most, so a larger bound counts as 255.
pub fn bound(u: &Table, depths: u32) -> u64
    ensures { result ≡ bound_in u.now depths }
{
    let depth = (depth_bound(u) as u64) + ((depths / OFFSET) as u64);
    u64::min(depth, 255) * ROW_MTT
}

// Stays: a set of cuts is a number of masks (tree/src/lib.rt), and that it is one is asked where masks are added.
// The open splits of a child inside the picture: these cuts below the bound, QT or not, and of these what the masks
// leave.
pub fn open_below(u: &Table, row: u64, bound: u64, cuts: u32, quad: u32) -> u32
    requires { (cuts < 32) × (quad ≤ 1) }
    ensures { result ≡ open_below u.now row bound cuts quad }
{
    inner_splits(u, row, splits::bit(row < bound, cuts) + quad)
}

// The cuts of the middle part of a ternary split: it is without the binary cut of its parent's direction.
pub fn middle_cuts(v: Direction) -> u32
    ensures { (result ≡ cuts_of v 1) × (result < 32) }
{
    CUTS - v.pick(BH, BV)
}

// What its depths leave to a child above all cuts: QT, and the cuts where M is not 0. A root is such a node too.
pub fn depth_above(u: &Table) -> u32
    ensures { result ≡ depth_above u.now }
{
    splits::bit(0 < depth_bound(u), CUTS) + QT
}

// What they leave to a part of a cut, with its offset F: these cuts where its depth is below M + F, and never QT.
#[tactic(auto, unfolding(crate::specs::RowNodes::node_in))]
fn depth_at(u: &Table, row: u64, offset: u32, cuts: u32) -> u32
    requires { cuts < 32 }
    ensures { result ≡ depth_at u.now row offset cuts }
{
    let deep = ((mtt_depth(row) + 1) as u64) < (depth_bound(u) as u64) + (offset as u64);
    offset % 1024 * OFFSET + splits::bit(deep, cuts)
}

// What they leave to a part of a binary cut at the edge of the picture, which adds 1 to F.
pub fn depth_below(u: &Table, row: u64, depths: u32) -> u32
    ensures { result ≡ depth_below u.now row depths }
{
    depth_at(u, row, depths / OFFSET + 1, CUTS)
}

// What they leave, of these cuts, to a part of a cut inside the picture, where F stays.
pub fn depth_beside(u: &Table, row: u64, depths: u32, cuts: u32) -> u32
    requires { cuts < 32 }
    ensures { result ≡ depth_beside u.now row depths cuts }
{
    depth_at(u, row, depths / OFFSET, cuts)
}
