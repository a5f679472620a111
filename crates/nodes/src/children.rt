// The rows of the children of a node.
ghost use Rattle.std.specs.Prelude.{◌≡◌, ◌≤◌};
ghost use Rattle.tree.specs.Splits as Splits;
ghost use Rattle.tree.specs.declared.Decision.TheVariants.{Binary, Ternary};
ghost use Rattle.blocks.specs.Table.{share_at};
ghost use Rattle.nodes.specs.RowNodes as RowNodes;
ghost use Rattle.nodes.specs.RowNodes.{step_to, row_above, child_row, step_along, cut_part};

use crate::fields::{height, width};
use blocks::{
    BINARY_H, BINARY_V, HEIGHT_PLACE, MIDDLE_H, MIDDLE_V, ROW_HEIGHT, ROW_MTT, ROW_QT, ROW_WIDTH,
    ROW_Y, TERNARY_H, TERNARY_V, WIDTH_PLACE, X_PLACE, Y_PLACE,
};
use tree::{Decision, Direction};

// By how much the exponent of a part's side is below its parent's, from the part's length in quarters.
fn fall(size: u32) -> u64
    ensures { (result ≡ RowNodes.fall size) × (result ≤ 2) }
{
    match size {
        1 => 2,
        2 => 1,
        _ => 0,
    }
}

// What a child adds to its parent's depths in the row's number: 1 to the QT depth under a quad split, else 1 to the
// MTT depth.
fn deeper(d: Decision) -> u64
    ensures { (result ≡ RowNodes.deeper d) × (281474976710656 ≤ result) × (result ≤ 72057594037927936) }
{
    match d {
        Decision::Quad => ROW_QT,
        Decision::Leaf | Decision::Binary(_) | Decision::Ternary(_) => ROW_MTT,
    }
}

// What a part adds to its parent's row: its depth and its place, less the fall of its exponents.
#[tactic(auto, unfolding(crate::specs::RowNodes::node_in))]
fn step_to(row: u64, d: Decision, i: u32) -> u64
    ensures { result ≡ step_to row d (share_at d i) }
{
    let place = blocks::part_at(width(row), height(row), d, i);
    let share = blocks::share_at(d, i);
    let falls = fall(share.wide) * ROW_WIDTH + fall(share.high) * ROW_HEIGHT;
    deeper(d) + (place.left as u64) + (place.top as u64) * ROW_Y - falls
}

// The parent's row that a child's is made from: a quad split leaves no MTT depth.
fn row_above(row: u64, d: Decision) -> u64
    ensures { result ≡ row_above row d }
{
    match d {
        Decision::Quad => row % ROW_MTT,
        Decision::Leaf | Decision::Binary(_) | Decision::Ternary(_) => row,
    }
}

// The row of the child with a number.
#[tactic(auto, unfolding(crate::specs::RowNodes::child_row))]
pub fn child_row(row: u64, d: Decision, i: u32) -> u64
    ensures { result ≡ child_row row d i }
{
    row_above(row, d).wrapping_add(step_to(row, d, i))
}

// The direction of a cut as data, so that no branch depends on it: where the exponent of the side that it divides
// stands in a row's number, and where that corner does.
fn exponent_place(v: Direction) -> u32
    ensures { (result ≡ Splits.pick v 40 32) × (result ≤ 40) }
{
    v.pick(HEIGHT_PLACE, WIDTH_PLACE)
}

fn corner_place(v: Direction) -> u32
    ensures { (result ≡ Splits.pick v 16 0) × (result ≤ 16) }
{
    v.pick(Y_PLACE, X_PLACE)
}

// The side that a cut divides.
fn side_along(row: u64, v: Direction) -> u64
    ensures { (result ≡ Splits.along v (RowNodes.node_in row)) × (result ≤ 128) }
{
    1 << ((row >> exponent_place(v)) % 8)
}

// So many quarters of it, as a step of the corner.
fn step_along(row: u64, v: Direction, start: u32) -> u64
    requires { start ≤ 4 }
    ensures { result ≡ step_along row v start }
{
    (side_along(row, v) / 4 * (start as u64)) << corner_place(v)
}

// The row of a part of a cut that is so many quarters long, but at its parent's corner.
fn cut_part(row: u64, v: Direction, size: u32) -> u64
    ensures { result ≡ cut_part row v size }
{
    row.wrapping_add(ROW_MTT - (fall(size) << exponent_place(v)))
}

// Stays: the parts of a cut are calls of `cut_part` and `step_along` under their own names; `child_row` is the same for
// any part, by the table of shares.
// The rows of the parts of a binary split, which differ in their corners only.
#[tactic(auto, using(crate::proofs::CutParts::half_share, crate::proofs::CutParts::first_half_is))]
pub fn first_half(row: u64, v: Direction) -> u64
    ensures { result ≡ child_row row (Binary v) 0 }
{
    cut_part(row, v, blocks::share_of(v, BINARY_H, BINARY_V))
}

#[tactic(auto, using(crate::proofs::CutParts::half_share, crate::proofs::CutParts::second_half_is))]
pub fn second_half(row: u64, v: Direction) -> u64
    ensures { result ≡ child_row row (Binary v) 1 }
{
    let start = blocks::share_of(v, BINARY_H, BINARY_V);
    first_half(row, v).wrapping_add(step_along(row, v, start))
}

// The rows of the parts of a ternary split: the first and the last differ in their corners only.
#[tactic(auto, using(crate::proofs::CutParts::outer_share, crate::proofs::CutParts::first_third_is))]
pub fn first_third(row: u64, v: Direction) -> u64
    ensures { result ≡ child_row row (Ternary v) 0 }
{
    cut_part(row, v, blocks::share_of(v, TERNARY_H, TERNARY_V))
}

#[tactic(auto, using(crate::proofs::CutParts::outer_share, crate::proofs::CutParts::middle_share, crate::proofs::CutParts::middle_third_is))]
pub fn middle_third(row: u64, v: Direction) -> u64
    ensures { result ≡ child_row row (Ternary v) 1 }
{
    let start = blocks::share_of(v, TERNARY_H, TERNARY_V);
    let middle = cut_part(row, v, blocks::share_of(v, MIDDLE_H, MIDDLE_V));
    middle.wrapping_add(step_along(row, v, start))
}

#[tactic(auto, using(crate::proofs::CutParts::outer_share, crate::proofs::CutParts::middle_share, crate::proofs::CutParts::last_third_is))]
pub fn last_third(row: u64, v: Direction) -> u64
    ensures { result ≡ child_row row (Ternary v) 2 }
{
    let middle = blocks::share_of(v, TERNARY_H, TERNARY_V);
    let start = middle + blocks::share_of(v, MIDDLE_H, MIDDLE_V);
    first_third(row, v).wrapping_add(step_along(row, v, start))
}
