// The way back of nodes inside the picture; built as the reader of these. A leaf is met by its parent, so that only
// splits cost a call.
// Stays: a walk answers one number: as `Result<u64, u64>`, which comes back in two registers, it takes 6 to 8 % more
// instructions.
// Stays: its twin in crate parser is no other instance of one walk: the check has no proof of a cycle through a trait's
// method ("a method of the block leads back to this function").
// Stays: the numbers of a node are arguments: in a struct by value a walk takes 8 to 10 % more instructions.
// Stays: what is lent is arguments: as fields of a struct behind a reference, as in crate parser, a way back of cuts
// takes 4 to 5 % more time.
ghost use Rattle.std.specs.Prelude.{◌≡◌, false, [], ◌∷◌, length, ◌+◌, ◌<◌, ◌≤◌};
ghost use Rattle.tree.specs.declared.Decision.TheVariants.{Leaf, Quad, Binary, Ternary};
ghost use Rattle.walks.specs.Stands.{word, Inside};
ghost use Rattle.walks.specs.Kids.{inner_kids};
ghost use Rattle.walks.specs.Walks.{Asked, Walked};
ghost use Rattle.tree.specs.Splits.{rights_in};
ghost use Rattle.tree.specs.Flags.{flags_for};
ghost use Rattle.nodes.specs.State.{place_of, given_of};
ghost use Rattle.flags.specs.Puts.{Follows};
ghost use Rattle.marks.specs.Marks.{Read};
ghost use Rattle.back.specs.Walking.{back_way, own_next};

use flags::{Scratch, allowed, put_split};
use marks::{Marks, decision_inside, same_row, word_at};
use nodes::{Table, child_answer};
use refusals::Reason;
use tree::{CUTS, Decision, Direction, QT};

// A leaf: its split flag, where some split is open, and on to the next row.
pub(crate) fn leaf(flags: &mut Scratch, c: u64, splits: u32) -> u64
    requires { (given_of c < 2048) × (place_of c ≤ 8192) × (splits < 32) }
    ensures { Follows flags.old (given_of c) (flags_for (rights_in false splits) Leaf) flags.new (given_of result) × (place_of result ≡ place_of c + 8) }
{
    if splits == 0 {
        return nodes::further(c, 8);
    }
    flags[nodes::count(c)] = 0;
    nodes::one_more(nodes::further(c, 8))
}

// A child whose open splits its parent knows. A leaf's own row is next.
#[cycle(back)]
pub(crate) fn child_back(
    u: &Table,
    rows: &[u8],
    flags: &mut Scratch,
    marks: &Marks,
    c: u64,
    row: u64,
    bound: u64,
    splits: u32,
) -> u64
    requires { Asked (back_way rows.now) (Inside bound) u.now c (word row splits ∷ []) × Read u.now rows.now marks.now }
    ensures { Walked (back_way rows.now) (Inside bound) u.now c (word row splits ∷ []) flags.old result flags.new }
{
    let at = nodes::place(c);
    if same_row(rows, at, row) {
        return leaf(flags, c, splits);
    }
    node_back(u, rows, flags, marks, c, row, bound, splits)
}

// A node whose own row is not next: it is split.
#[cycle(back)]
pub(crate) fn node_back(
    u: &Table,
    rows: &[u8],
    flags: &mut Scratch,
    marks: &Marks,
    c: u64,
    row: u64,
    bound: u64,
    splits: u32,
) -> u64
    requires { Asked (back_way rows.now) (Inside bound) u.now c (word row splits ∷ []) × Read u.now rows.now marks.now × (own_next rows.now c row ≡ false) }
    ensures { Walked (back_way rows.now) (Inside bound) u.now c (word row splits ∷ []) flags.old result flags.new }
{
    let at = nodes::place(c);
    if rows.len() <= at {
        return nodes::refusal(Reason::NoTree, 0);
    }
    let d = decision_inside(row, word_at(rows, at), marks, at);
    if !allowed(false, splits, d) {
        return nodes::refusal(Reason::NoTree, 0);
    }
    let n = put_split(flags, nodes::count(c), splits, d);
    children_back(u, rows, flags, marks, nodes::position(at, n), row, bound, d)
}

// The children of a decision, in coding order.
#[cycle(back)]
pub(crate) fn children_back(
    u: &Table,
    rows: &[u8],
    flags: &mut Scratch,
    marks: &Marks,
    c: u64,
    row: u64,
    bound: u64,
    d: Decision,
) -> u64
    requires { Asked (back_way rows.now) (Inside bound) u.now c (inner_kids u.now row bound d) × Read u.now rows.now marks.now }
    ensures { Walked (back_way rows.now) (Inside bound) u.now c (inner_kids u.now row bound d) flags.old result flags.new }
{
    match d {
        Decision::Leaf => c,
        Decision::Quad => four_back(u, rows, flags, marks, c, row, bound),
        Decision::Binary(v) => two_back(u, rows, flags, marks, c, row, v, bound),
        Decision::Ternary(v) => three_back(u, rows, flags, marks, c, row, v, bound),
    }
}

// The four children of a quad split.
#[cycle(back)]
pub(crate) fn four_back(
    u: &Table,
    rows: &[u8],
    flags: &mut Scratch,
    marks: &Marks,
    c: u64,
    row: u64,
    bound: u64,
) -> u64
    requires { Asked (back_way rows.now) (Inside bound) u.now c (inner_kids u.now row bound Quad) × Read u.now rows.now marks.now }
    ensures { Walked (back_way rows.now) (Inside bound) u.now c (inner_kids u.now row bound Quad) flags.old result flags.new }
{
    let row0 = nodes::child_row(row, Decision::Quad, 0);
    let m = nodes::open_below(u, row0, bound, CUTS, QT);
    let first = child_back(u, rows, flags, marks, c, row0, bound, m);
    let Ok(c1) = child_answer(first) else {
        return first;
    };
    let row1 = nodes::child_row(row, Decision::Quad, 1);
    let second = child_back(u, rows, flags, marks, c1, row1, bound, m);
    let Ok(c2) = child_answer(second) else {
        return second;
    };
    let row2 = nodes::child_row(row, Decision::Quad, 2);
    let third = child_back(u, rows, flags, marks, c2, row2, bound, m);
    let Ok(c3) = child_answer(third) else {
        return third;
    };
    let row3 = nodes::child_row(row, Decision::Quad, 3);
    let fourth = child_back(u, rows, flags, marks, c3, row3, bound, m);
    let Ok(c4) = child_answer(fourth) else {
        return fourth;
    };
    c4
}

// The two parts of a binary split.
#[cycle(back)]
pub(crate) fn two_back(
    u: &Table,
    rows: &[u8],
    flags: &mut Scratch,
    marks: &Marks,
    c: u64,
    row: u64,
    v: Direction,
    bound: u64,
) -> u64
    requires { Asked (back_way rows.now) (Inside bound) u.now c (inner_kids u.now row bound (Binary v)) × Read u.now rows.now marks.now }
    ensures { Walked (back_way rows.now) (Inside bound) u.now c (inner_kids u.now row bound (Binary v)) flags.old result flags.new }
{
    let row0 = nodes::first_half(row, v);
    let row1 = nodes::second_half(row, v);
    let m = nodes::open_below(u, row0, bound, CUTS, 0);
    let first = child_back(u, rows, flags, marks, c, row0, bound, m);
    let Ok(c1) = child_answer(first) else {
        return first;
    };
    let second = child_back(u, rows, flags, marks, c1, row1, bound, m);
    let Ok(c2) = child_answer(second) else {
        return second;
    };
    c2
}

// The three parts of a ternary split; the middle one has fewer splits open.
#[cycle(back)]
pub(crate) fn three_back(
    u: &Table,
    rows: &[u8],
    flags: &mut Scratch,
    marks: &Marks,
    c: u64,
    row: u64,
    v: Direction,
    bound: u64,
) -> u64
    requires { Asked (back_way rows.now) (Inside bound) u.now c (inner_kids u.now row bound (Ternary v)) × Read u.now rows.now marks.now }
    ensures { Walked (back_way rows.now) (Inside bound) u.now c (inner_kids u.now row bound (Ternary v)) flags.old result flags.new }
{
    let row0 = nodes::first_third(row, v);
    let m = nodes::open_below(u, row0, bound, CUTS, 0);
    let first = child_back(u, rows, flags, marks, c, row0, bound, m);
    let Ok(c1) = child_answer(first) else {
        return first;
    };
    let row1 = nodes::middle_third(row, v);
    let middle = nodes::open_below(u, row1, bound, nodes::middle_cuts(v), 0);
    let second = child_back(u, rows, flags, marks, c1, row1, bound, middle);
    let Ok(c2) = child_answer(second) else {
        return second;
    };
    let row2 = nodes::last_third(row, v);
    let third = child_back(u, rows, flags, marks, c2, row2, bound, m);
    let Ok(c3) = child_answer(third) else {
        return third;
    };
    c3
}
