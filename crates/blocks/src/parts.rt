// The parts of a split: one constant table of their shares, and a part's place in its parent.
#![tactic(auto, using(crate::proofs::Shares::no_part, crate::proofs::Shares::either_way), unfolding(crate::specs::Table::share_table, crate::specs::Table::share_at, tree::specs::Children::shares))]

ghost use Rattle.std.specs.Prelude.{◌≡◌, ◌*◌, ◌/◌, ◌≤◌, get_or};
ghost use Rattle.tree.specs.Splits as Splits;
ghost use Rattle.tree.specs.Children as Children;
ghost use Rattle.tree.specs.Children.{part_of};
ghost use Rattle.blocks.specs.Table.{share_table, share_at};

use tree::{Decision, Direction, Part, Share};

// The shares of the parts of QT (one way), BH, BV, TH and TV, in quarters of the parent. They are bytes: where a direction
// chooses between two entries, the compiled code then has two constants, and of u32 it loads the entry from memory.
const SHARES: [u8; 15] = [2, 2, 0, 2, 2, 0, 2, 2, 0, 1, 2, 1, 1, 2, 1];

// The places of its first parts: the first of the two parts of BH and of BV, and the first of the three parts of TH and
// of TV, which the middle one follows.
pub const BINARY_H: usize = 3;

pub const BINARY_V: usize = 6;

pub const TERNARY_H: usize = 9;

pub const TERNARY_V: usize = 12;

pub const MIDDLE_H: usize = 10;

pub const MIDDLE_V: usize = 13;

// An entry of the table; 0 past its end.
fn share(i: usize) -> u32
    ensures { result ≡ get_or share_table i 0 }
{
    if i < 15 { u32::from(SHARES[i]) } else { 0 }
}

// A share from its five numbers.
fn share_from(left: u32, top: u32, wide: u32, high: u32, part: u32) -> Share
    ensures { result ≡ Children.share left top wide high part }
{
    Share {
        left,
        top,
        wide,
        high,
        part,
    }
}

// The share of a part that is not there.
fn no_share() -> Share
    ensures { result ≡ Children.share 0 0 0 0 0 }
{
    share_from(0, 0, 0, 0, 0)
}

// A part of a cut: from a start, so long, over the whole of the other side.
fn slab(d: Direction, start: u32, size: u32, part: u32) -> Share
    ensures { result ≡ Children.slab d start size part }
{
    match d {
        Direction::Horizontal => share_from(0, start, 4, size, part),
        Direction::Vertical => share_from(start, 0, size, 4, part),
    }
}

// An entry by the direction of a cut.
pub fn share_of(d: Direction, horizontal: usize, vertical: usize) -> u32
    ensures { result ≡ Splits.pick d (get_or share_table horizontal 0) (get_or share_table vertical 0) }
{
    match d {
        Direction::Horizontal => share(horizontal),
        Direction::Vertical => share(vertical),
    }
}

// Stays: one function for the three kinds of split would take the places in the table and the number of parts as arguments, which is no plainer.
fn quad_share(i: u32) -> Share
    ensures { result ≡ share_at Decision.Quad i }
{
    let first = share(0);
    let second = share(1);
    match i {
        0 => share_from(0, 0, first, first, i),
        1 => share_from(first, 0, second, first, i),
        2 => share_from(0, first, first, second, i),
        3 => share_from(first, first, second, second, i),
        _ => no_share(),
    }
}

fn binary_share(d: Direction, i: u32) -> Share
    ensures { result ≡ share_at (Decision.Binary d) i }
{
    let first = share_of(d, BINARY_H, BINARY_V);
    match i {
        0 => slab(d, 0, first, i),
        1 => slab(d, first, share_of(d, 4, 7), i),
        _ => no_share(),
    }
}

fn ternary_share(d: Direction, i: u32) -> Share
    ensures { result ≡ share_at (Decision.Ternary d) i }
{
    let first = share_of(d, TERNARY_H, TERNARY_V);
    let second = share_of(d, MIDDLE_H, MIDDLE_V);
    match i {
        0 => slab(d, 0, first, i),
        1 => slab(d, first, second, i),
        2 => slab(d, first + second, share_of(d, 11, 14), i),
        _ => no_share(),
    }
}

// The share of a decision's part; an empty one where it has no such part.
pub fn share_at(d: Decision, i: u32) -> Share
    ensures { result ≡ share_at d i }
{
    match d {
        Decision::Leaf => no_share(),
        Decision::Quad => quad_share(i),
        Decision::Binary(v) => binary_share(v, i),
        Decision::Ternary(v) => ternary_share(v, i),
    }
}

// So many quarters of a side.
fn quarters(side: u32, count: u32) -> u32
    requires { count ≤ 4 }
    ensures { result ≡ side / 4 * count }
{
    side / 4 * count
}

// The place of a decision's part in a parent of sides w and h; an empty one where it has no such part.
pub fn part_at(w: u32, h: u32, d: Decision, i: u32) -> Part
    ensures { result ≡ part_of w h (share_at d i) }
{
    let s = share_at(d, i);
    Part {
        left: quarters(w, s.left),
        top: quarters(h, s.top),
        wide: quarters(w, s.wide),
        high: quarters(h, s.high),
    }
}
