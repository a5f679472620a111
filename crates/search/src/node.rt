// The search at a node: every decision that the next row leaves is tried, and the farthest answer kept. An answer is a
// walk's: it goes on after the rows of a tree, or it is refused with 16 after the most rows that a tree's table begins
// with.
// Stays: the numbers of a node are arguments, as of the walks: their contract (`Asked`, `Walked`) has them one by one.
// Stays: an answer is one number, as of the walks: the farther of two refusals is the greater number.
ghost use Rattle.std.specs.Prelude.{◌≡◌, true, [], ◌∷◌, ◌-◌, ◌%◌, ◌<◌, length};
ghost use Rattle.tree.specs.Splits.{is_split};
ghost use Rattle.tree.specs.Children.{shares};
ghost use Rattle.tree.specs.Search.{cuts};
ghost use Rattle.nodes.specs.State.{place_of};
ghost use Rattle.walks.specs.Stands.{word, Outer};
ghost use Rattle.walks.specs.Walks.{Asked, Walked};
ghost use Rattle.search.specs.Walking.{search_way, words_from, Falls, Known, Tried};

use crate::parts::{left_to, parts};
use blocks::ROW_WIDTH;
use flags::allowed;
use marks::word_at;
use nodes::{Table, child_answer};
use refusals::Reason;
use tree::{Decision, Direction};

// What a search is lent: the table of the tree's kind, and whole rows.
#[derive(Clone, Copy)]
pub(crate) struct Search<'a> {
    pub(crate) u: &'a Table,
    pub(crate) rows: &'a [u8],
    ghost whole: { length rows.now % 8 ≡ 0 },
}

impl<'a> Search<'a> {
    // A child; one whose corner is outside the picture is skipped. The next row starts at its corner, or it takes none.
    #[cycle(search)]
    pub(crate) fn child_search(&self, c: u64, row: u64, depths: u32) -> u64
        requires { Asked (search_way self.now.rows.now) Outer self.now.u.now c (word row depths ∷ []) }
        ensures { Walked (search_way self.now.rows.now) Outer self.now.u.now c (word row depths ∷ []) [] result [] }
    {
        if !nodes::begins_inside(self.u, row) {
            return c;
        }
        let at = nodes::place(c);
        if self.rows.len() <= at {
            return nodes::refusal(Reason::NoTree, at / 8);
        }
        if word_at(self.rows, at) % ROW_WIDTH != row % ROW_WIDTH {
            return nodes::refusal(Reason::NoTree, at / 8);
        }
        let right = nodes::right_out_at(self.u, row);
        let bottom = nodes::bottom_out_at(self.u, row);
        if right | bottom {
            let splits = nodes::out_splits(self.u, row, depths, right, bottom);
            return self.node_search(c, row, depths, true, splits);
        }
        let splits = nodes::inner_splits(self.u, row, depths);
        self.node_search(c, row, depths, false, splits)
    }

    // A node whose open splits are known, with a row ahead: its depths say which decisions there may be.
    #[cycle(search)]
    pub(crate) fn node_search(&self, c: u64, row: u64, depths: u32, out: bool, splits: u32) -> u64
        requires { Asked (search_way self.now.rows.now) (Known out splits) self.now.u.now c (word row depths ∷ []) × (place_of c < length self.now.rows.now) }
        ensures { Walked (search_way self.now.rows.now) (Known out splits) self.now.u.now c (word row depths ∷ []) [] result [] }
    {
        let at = nodes::place(c);
        let next = word_at(self.rows, at);
        if nodes::qt_depth(row) < nodes::qt_depth(next) {
            return self.split_search(c, row, depths, out, splits, Decision::Quad);
        }
        if nodes::mtt_depth(next) != nodes::mtt_depth(row) {
            return self.cut_search(c, row, depths, out, splits);
        }
        if (next == row) & !out {
            nodes::further(c, 8)
        } else {
            nodes::refusal(Reason::NoTree, at / 8)
        }
    }

    // The four cuts of a node: the first that goes on, else the farthest: of refusals with one number, the greatest has the
    // greatest place.
    #[cycle(search)]
    pub(crate) fn cut_search(&self, c: u64, row: u64, depths: u32, out: bool, splits: u32) -> u64
        requires { Asked (search_way self.now.rows.now) (Known out splits) self.now.u.now c (word row depths ∷ []) }
        ensures { Tried self.now.rows.now out splits self.now.u.now c (word row depths) cuts result }
    {
        let bh = Decision::Binary(Direction::Horizontal);
        let first = self.split_search(c, row, depths, out, splits, bh);
        let Err(_) = child_answer(first) else {
            return first;
        };
        let bv = Decision::Binary(Direction::Vertical);
        let second = self.split_search(c, row, depths, out, splits, bv);
        let Err(_) = child_answer(second) else {
            return second;
        };
        let th = Decision::Ternary(Direction::Horizontal);
        let third = self.split_search(c, row, depths, out, splits, th);
        let Err(_) = child_answer(third) else {
            return third;
        };
        let tv = Decision::Ternary(Direction::Vertical);
        let fourth = self.split_search(c, row, depths, out, splits, tv);
        let Err(_) = child_answer(fourth) else {
            return fourth;
        };
        first.max(second.max(third.max(fourth)))
    }

    // One split, where the node allows it.
    #[cycle(search)]
    pub(crate) fn split_search(
        &self,
        c: u64,
        row: u64,
        depths: u32,
        out: bool,
        splits: u32,
        d: Decision,
    ) -> u64
        requires { Asked (search_way self.now.rows.now) (Known out splits) self.now.u.now c (word row depths ∷ []) × (is_split d ≡ true) }
        ensures { Tried self.now.rows.now out splits self.now.u.now c (word row depths) (d ∷ []) result }
    {
        if !allowed(out, splits, d) {
            return nodes::refusal(Reason::NoTree, nodes::place(c) / 8);
        }
        self.parts_search(c, row, depths, out, d, 0)
    }

    // The parts of a split from the one with a number on.
    #[cycle(search)]
    pub(crate) fn parts_search(
        &self,
        c: u64,
        row: u64,
        depths: u32,
        out: bool,
        d: Decision,
        i: u32,
    ) -> u64
        requires { Asked (search_way self.now.rows.now) Outer self.now.u.now c (words_from self.now.u.now row depths out d i (length (shares d) - i)) × Falls row d }
        ensures { Walked (search_way self.now.rows.now) Outer self.now.u.now c (words_from self.now.u.now row depths out d i (length (shares d) - i)) [] result [] }
    {
        if parts(d) <= i {
            return c;
        }
        let part = nodes::child_row(row, d, i);
        let left = left_to(self.u, row, depths, out, d, i);
        let first = self.child_search(c, part, left);
        let Ok(c1) = child_answer(first) else {
            return first;
        };
        self.parts_search(c1, row, depths, out, d, i + 1)
    }
}
