// The decision at a node that is split, from the next row and the marks of the rows: no scan.
ghost use Rattle.std.specs.Prelude.{◌≡◌, ◌*◌, ◌/◌, ◌≤◌, if◌then◌else◌, nat_lt};
ghost use Rattle.tree.specs.declared.Decision.TheVariants.{Quad, Binary};
ghost use Rattle.tree.specs.declared.Direction.TheVariants.{Horizontal, Vertical};
ghost use Rattle.nodes.specs.RowNodes.{node_in};
ghost use Rattle.marks.specs.Marks.{Shows, Cut, Divided};

use crate::pass::{Marks, before, starts};
use blocks::{BINARY_H, BINARY_V, TERNARY_H, TERNARY_V};
use tree::{Decision, Direction};

// The corner of the row after the first part of a cut, whose share of the node's area is so many quarters.
fn after_part(row: u64, marks: &Marks, at: usize, share: u32) -> u32
    requires { share ≤ 2 }
    ensures { Shows marks.now row at ((node_in row).w * (node_in row).h * share / 64) result }
{
    let base = before(marks, at);
    let cells = nodes::width(row) * nodes::height(row) * share / 64;
    starts(marks, base.wrapping_add(cells))
}

// The cut of a node inside the picture, whose rows begin at a place; the shares of a cut are the same in both
// directions. The tests are branches: by selects the three loads would stand in the chain from row to row.
#[tactic(auto, using(crate::proofs::Found::cut_flat, crate::proofs::Found::cut_steep, crate::proofs::Found::cut_across, crate::proofs::Found::cut_down), unfolding(nodes::specs::RowNodes::node_in, blocks::specs::Table::share_table))]
fn cut_ahead(row: u64, marks: &Marks, at: usize) -> Decision
    ensures { Cut marks.now row at result }
{
    let second = blocks::share_of(Direction::Horizontal, BINARY_H, BINARY_V);
    let half = after_part(row, marks, at, second);
    if half % 65536 == nodes::left(row) {
        return Decision::Binary(Direction::Horizontal);
    }
    if half / 65536 == nodes::top(row) {
        return Decision::Binary(Direction::Vertical);
    }
    let middle = blocks::share_of(Direction::Horizontal, TERNARY_H, TERNARY_V);
    let quarter = after_part(row, marks, at, middle);
    if quarter % 65536 == nodes::left(row) {
        return Decision::Ternary(Direction::Horizontal);
    }
    Decision::Ternary(Direction::Vertical)
}

// The decision at a node inside the picture that is split; `next` is the number of the row at the place.
#[tactic(auto, using(crate::proofs::Found::divided_quad, crate::proofs::Found::divided_cut), unfolding(nodes::specs::RowNodes::node_in))]
pub fn decision_inside(row: u64, next: u64, marks: &Marks, at: usize) -> Decision
    ensures { Divided marks.now row next at result }
{
    if nodes::qt_depth(row) < nodes::qt_depth(next) {
        return Decision::Quad;
    }
    cut_ahead(row, marks, at)
}

// The decision at a node that is out, at the bottom or only at the right.
#[tactic(auto, unfolding(nodes::specs::RowNodes::node_in))]
pub fn decision_out(row: u64, next: u64, bottom: bool) -> Decision
    ensures { result ≡ (if nat_lt (node_in row).qt (node_in next).qt then Quad else (if bottom then Binary Horizontal else Binary Vertical)) }
{
    if nodes::qt_depth(row) < nodes::qt_depth(next) {
        return Decision::Quad;
    }
    if bottom {
        Decision::Binary(Direction::Horizontal)
    } else {
        Decision::Binary(Direction::Vertical)
    }
}
