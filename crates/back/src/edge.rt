// The way back of nodes that are out of the picture at the right or at the bottom, and of their children.
// Stays: a walk answers one number: as `Result<u64, u64>`, which comes back in two registers, it takes 6 to 8 % more
// instructions.
// Stays: its twin in crate parser is no other instance of one walk: the check has no proof of a cycle through a trait's
// method ("a method of the block leads back to this function").
// Stays: what is lent is arguments: as fields of a struct behind a reference, as in crate parser, a way back of cuts
// takes 4 to 5 % more time.
ghost use Rattle.std.specs.Prelude.{◌≡◌, true, [], ◌∷◌, length};
ghost use Rattle.tree.specs.Splits.{is_out};
ghost use Rattle.tree.specs.Children.{corner_inside};
ghost use Rattle.nodes.specs.Tables.{limits_in};
ghost use Rattle.nodes.specs.RowNodes.{node_in};
ghost use Rattle.walks.specs.Stands.{word, Outer};
ghost use Rattle.walks.specs.Kids.{four_words, outer_kids};
ghost use Rattle.walks.specs.Walks.{Asked, Walked};
ghost use Rattle.marks.specs.Marks.{Read};
ghost use Rattle.back.specs.Walking.{back_way};

use crate::inside;
use flags::{Scratch, allowed, put_out};
use marks::{Marks, decision_out, word_at};
use nodes::{Table, child_answer};
use refusals::Reason;
use tree::Decision;

// A child of a node that is out; one whose corner is outside the picture is skipped.
#[cycle(at_edge)]
pub(crate) fn child_back(
    u: &Table,
    rows: &[u8],
    flags: &mut Scratch,
    marks: &Marks,
    c: u64,
    row: u64,
    depths: u32,
) -> u64
    requires { Asked (back_way rows.now) Outer u.now c (word row depths ∷ []) × Read u.now rows.now marks.now }
    ensures { Walked (back_way rows.now) Outer u.now c (word row depths ∷ []) flags.old result flags.new }
{
    if !nodes::begins_inside(u, row) {
        return c;
    }
    if nodes::right_out_at(u, row) | nodes::bottom_out_at(u, row) {
        return node_back(u, rows, flags, marks, c, row, depths);
    }
    let splits = nodes::inner_splits(u, row, depths);
    inside::child_back(
        u,
        rows,
        flags,
        marks,
        c,
        row,
        nodes::bound(u, depths),
        splits,
    )
}

// A node that is out: it is split.
#[cycle(at_edge)]
pub(crate) fn node_back(
    u: &Table,
    rows: &[u8],
    flags: &mut Scratch,
    marks: &Marks,
    c: u64,
    row: u64,
    depths: u32,
) -> u64
    requires { Asked (back_way rows.now) Outer u.now c (word row depths ∷ []) × Read u.now rows.now marks.now × (corner_inside (limits_in u.now) (node_in row) ≡ true) × (is_out (limits_in u.now) (node_in row) ≡ true) }
    ensures { Walked (back_way rows.now) Outer u.now c (word row depths ∷ []) flags.old result flags.new }
{
    let bottom = nodes::bottom_out_at(u, row);
    let splits = nodes::out_splits(u, row, depths, nodes::right_out_at(u, row), bottom);
    let at = nodes::place(c);
    if rows.len() <= at {
        return nodes::refusal(Reason::NoTree, 0);
    }
    let d = decision_out(row, word_at(rows, at), bottom);
    if !allowed(true, splits, d) {
        return nodes::refusal(Reason::NoTree, 0);
    }
    let n = put_out(flags, nodes::count(c), splits, d);
    children_back(
        u,
        rows,
        flags,
        marks,
        nodes::position(at, n),
        row,
        depths,
        d,
    )
}

// The children of a node that is out, where no ternary split is open.
#[cycle(at_edge)]
pub(crate) fn children_back(
    u: &Table,
    rows: &[u8],
    flags: &mut Scratch,
    marks: &Marks,
    c: u64,
    row: u64,
    depths: u32,
    d: Decision,
) -> u64
    requires { Asked (back_way rows.now) Outer u.now c (outer_kids u.now row depths d) × Read u.now rows.now marks.now }
    ensures { Walked (back_way rows.now) Outer u.now c (outer_kids u.now row depths d) flags.old result flags.new }
{
    match d {
        Decision::Leaf => c,
        Decision::Quad => {
            let k = nodes::depth_above(u);
            four_back(u, rows, flags, marks, c, row, k)
        }
        Decision::Binary(v) => {
            let k = nodes::depth_below(u, row, depths);
            let row0 = nodes::first_half(row, v);
            let row1 = nodes::second_half(row, v);
            pair_back(u, rows, flags, marks, c, row0, row1, k)
        }
        Decision::Ternary(_) => c,
    }
}

// The four children of a quad split.
#[cycle(at_edge)]
pub(crate) fn four_back(
    u: &Table,
    rows: &[u8],
    flags: &mut Scratch,
    marks: &Marks,
    c: u64,
    row: u64,
    depths: u32,
) -> u64
    requires { Asked (back_way rows.now) Outer u.now c (four_words row depths) × Read u.now rows.now marks.now }
    ensures { Walked (back_way rows.now) Outer u.now c (four_words row depths) flags.old result flags.new }
{
    let row0 = nodes::child_row(row, Decision::Quad, 0);
    let first = child_back(u, rows, flags, marks, c, row0, depths);
    let Ok(c1) = child_answer(first) else {
        return first;
    };
    let row1 = nodes::child_row(row, Decision::Quad, 1);
    let second = child_back(u, rows, flags, marks, c1, row1, depths);
    let Ok(c2) = child_answer(second) else {
        return second;
    };
    let row2 = nodes::child_row(row, Decision::Quad, 2);
    let third = child_back(u, rows, flags, marks, c2, row2, depths);
    let Ok(c3) = child_answer(third) else {
        return third;
    };
    let row3 = nodes::child_row(row, Decision::Quad, 3);
    let fourth = child_back(u, rows, flags, marks, c3, row3, depths);
    let Ok(c4) = child_answer(fourth) else {
        return fourth;
    };
    c4
}

// The two parts of a binary split.
#[cycle(at_edge)]
pub(crate) fn pair_back(
    u: &Table,
    rows: &[u8],
    flags: &mut Scratch,
    marks: &Marks,
    c: u64,
    row0: u64,
    row1: u64,
    depths: u32,
) -> u64
    requires { Asked (back_way rows.now) Outer u.now c (word row0 depths ∷ word row1 depths ∷ []) × Read u.now rows.now marks.now }
    ensures { Walked (back_way rows.now) Outer u.now c (word row0 depths ∷ word row1 depths ∷ []) flags.old result flags.new }
{
    let first = child_back(u, rows, flags, marks, c, row0, depths);
    let Ok(c1) = child_answer(first) else {
        return first;
    };
    let second = child_back(u, rows, flags, marks, c1, row1, depths);
    let Ok(c2) = child_answer(second) else {
        return second;
    };
    c2
}
