// The way back's test: whether some flags give the rows of a unit, with document 01's refusals 1 to 10 and 15, and 27, 28
// and 16 where no flags do.
ghost use Rattle.std.specs.Prelude.{◌≡◌, ◌%◌, ◌&&◌, length, ltb};
ghost use Rattle.tree.specs.Kind.{luma};
ghost use Rattle.tree.specs.Splits.{rights_of, open_splits};
ghost use Rattle.refusals.specs.Numbers.{number};
ghost use Rattle.refusals.specs.Said.{said};
ghost use Rattle.unit.specs.Answers.{answer_of};
ghost use Rattle.unit.specs.Writer.{test_rows, test_unit};
ghost use Rattle.walks.specs.Rooted.{Rooted};
ghost use Rattle.tree.specs.Rows.{rows_in};
ghost use Rattle.tree.specs.Back.{back_node};
ghost use Rattle.walks.specs.Walks.{Done};
ghost use Rattle.back.specs.Walking.{back_way};
ghost use Rattle.writer.specs.Delivery.{leaf_alone, quad_alone, leaf_flags, walk_end, StuckEnd};

use flags::{Scratch, some_open};
use marks::same_row;
use refusals::{Reason, Refusal};
use settings::Settings;
use tree::{Limits, Node};
use unit::Answer;
use walks::Root;

// Whether the only row is the root's own, and the root lies inside the picture: then it is a leaf.
#[tactic(auto, using(crate::proofs::Alone::own_row))]
pub(crate) fn is_leaf(root: Root, rows: &[u8]) -> bool
    ensures { result ≡ leaf_alone root.limits root.node rows.now }
{
    rows.len() == 8
        && same_row(rows, 0, blocks::row_word(root.node))
        && !splits::out(root.limits, root.node)
}

// Whether QT is open besides: then the unit is a leaf with one flag.
pub(crate) fn is_quad_leaf(root: Root, rows: &[u8]) -> bool
    ensures { result ≡ quad_alone root.limits root.node rows.now }
{
    root.limits.minqt < root.node.w && is_leaf(root, rows)
}

// The open splits of a root, as far as the flags of a leaf depend on them: where QT is open, no other one plays a part.
#[tactic(auto, using(crate::proofs::Alone::quad_leaf))]
pub(crate) fn leaf_splits(root: Root) -> u32
    ensures { leaf_flags result ≡ leaf_flags (open_splits (rights_of (luma root.limits) root.node)) }
{
    if root.limits.minqt < root.node.w {
        1
    } else {
        splits::open_splits(root.limits, root.node)
    }
}

// How many flags a root has that is a leaf: its split flag, where some split is open.
#[tactic(auto, using(crate::proofs::Ends::leaf_long))]
fn leaf_count(splits: u32) -> usize
    ensures { result ≡ length (leaf_flags splits) }
{
    usize::from(some_open(splits))
}

// Stays: limits and node, and that they are a root's, as `test_table` promises it for any root that can be walked
// (`Rooted`); `Root` is a unit's.
// The walk of whole rows, from the numbers of a root, into a scratch table.
pub(crate) fn walk_all(l: Limits, root: Node, rows: &[u8], scratch: &mut Scratch) -> u64
    requires { Rooted (luma l) root × (length rows.now % 8 ≡ 0) }
    ensures { Done (back_way rows.now) (back_node (luma l) root (rows_in rows.now)) 0 scratch.old result scratch.new }
{
    let u = nodes::luma_table(l);
    let splits = splits::open_splits(l, root);
    let row = blocks::row_word(root);
    back::tree_back(&u, rows, scratch, row, splits::out(l, root), splits)
}

// The end of a walk that takes the rows of a tree: 28 where rows are left, or the number of their flags.
#[tactic(auto, unfolding(crate::specs::Delivery::walk_end))]
pub(crate) fn walk_end(end: u64, rows: &[u8]) -> Answer
    ensures { said result ≡ walk_end end rows.now }
{
    let at = nodes::place(end);
    if at < rows.len() {
        return Err(Reason::RowsLeft.at(at / 8));
    }
    Ok(nodes::count(end))
}

// The end of whole rows that no walk takes: 27 where all of them lead, else 16, at the place that a search finds. Two
// functions call it, so that it stays out of the walk's, with the walk's tables off the stack.
pub(crate) fn stuck_end(l: Limits, root: Node, rows: &[u8]) -> Refusal
    requires { Rooted (luma l) root × (length rows.now % 8 ≡ 0) }
    ensures { StuckEnd (luma l) root rows.now (number result.reason) result.place }
{
    let u = nodes::luma_table(l);
    let splits = splits::open_splits(l, root);
    let row = blocks::row_word(root);
    let leading = search::leading_rows(&u, rows, row, splits::out(l, root), splits);
    if leading == rows.len() / 8 {
        Reason::RowsMissing.at(leading)
    } else {
        Reason::NoTree.at(leading)
    }
}

// The test of whole rows by a walk, refusals 27, 28 and 16.
fn test_walk(l: Limits, root: Node, rows: &[u8]) -> Answer
    requires { Rooted (luma l) root × (length rows.now % 8 ≡ 0) }
    ensures { said result ≡ answer_of (test_rows (luma l) root rows.now) }
{
    let mut scratch = [0u8; 2048];
    let Ok(end) = nodes::child_answer(walk_all(l, root, rows, &mut scratch)) else {
        return Err(stuck_end(l, root, rows));
    };
    walk_end(end, rows)
}

// The test of a table, refusals 15, 27, 28 and 16; a root that is a leaf needs no walk.
#[tactic(auto, using(crate::proofs::Whole::rows_cut, crate::proofs::Alone::leaf_counted, walks::proofs::UnitRoots::rooted))]
fn test_rows(root: Root, rows: &[u8]) -> Answer
    ensures { said result ≡ answer_of (test_rows (luma root.limits) root.node rows.now) }
{
    if rows.len() % 8 != 0 {
        return Err(Reason::RowBytes.at(rows.len() / 8));
    }
    if is_leaf(root, rows) {
        return Ok(leaf_count(leaf_splits(root)));
    }
    test_walk(root.limits, root.node, rows)
}

// The same without the short way of a leaf.
// Stays: with one more caller of that the compiler takes it out of the page and the way back, and one row took 16.3 ns
// for 11.8.
#[tactic(auto, using(crate::proofs::Whole::rows_cut))]
pub fn test_table(l: Limits, root: Node, rows: &[u8]) -> Answer
    requires { Rooted (luma l) root }
    ensures { said result ≡ answer_of (test_rows (luma l) root rows.now) }
{
    if rows.len() % 8 != 0 {
        return Err(Reason::RowBytes.at(rows.len() / 8));
    }
    test_walk(l, root, rows)
}

// Tests the rows of the unit at an address: answers the number of the flags that give them, or a refusal of the way back
// that does not concern a flag buffer.
pub fn test_unit(s: Settings, address: usize, rows: &[u8]) -> Answer
    ensures { said result ≡ answer_of (test_unit s address rows.now) }
{
    let q = settings::unit_at(s, address)?;
    test_rows(Root::of(s, q), rows)
}
