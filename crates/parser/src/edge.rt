// The reading of nodes that are out of the picture at the right or at the bottom, and of their children.
// Stays: a walk answers one number: as `Result<u64, u64>`, which comes back in two registers, it takes 6 to 8 % more
// instructions.
// Stays: its twin in crate back is no other instance of one walk: the check has no proof of a cycle through a trait's
// method ("a method of the block leads back to this function").
// Stays: the table of rows is an argument and no field: each contract would have to say that the other fields stay,
// which is no plainer.
ghost use Rattle.std.specs.Prelude.{◌≡◌, true, [], ◌∷◌, length};
ghost use Rattle.tree.specs.Splits.{is_out};
ghost use Rattle.tree.specs.Children.{corner_inside};
ghost use Rattle.nodes.specs.Tables.{limits_in};
ghost use Rattle.nodes.specs.RowNodes.{node_in};
ghost use Rattle.walks.specs.Stands.{word, Outer};
ghost use Rattle.walks.specs.Kids.{four_words, outer_kids};
ghost use Rattle.walks.specs.Walks.{Asked, Walked};
ghost use Rattle.parser.specs.Walking.{read_way};

use crate::reading::{Reading, Scratch};
use nodes::child_answer;
use tree::Decision;

impl<'a> Reading<'a> {
    // A child of a node that is out; one whose corner is outside the picture is skipped.
    #[cycle(at_edge)]
    pub(crate) fn child_at_edge(&self, rows: &mut Scratch, c: u64, row: u64, depths: u32) -> u64
        requires { Asked (read_way self.now.flags.now) Outer self.now.u.now c (word row depths ∷ []) }
        ensures { Walked (read_way self.now.flags.now) Outer self.now.u.now c (word row depths ∷ []) rows.old result rows.new }
    {
        if !nodes::begins_inside(self.u, row) {
            return c;
        }
        if nodes::right_out_at(self.u, row) | nodes::bottom_out_at(self.u, row) {
            return self.node_at_edge(rows, c, row, depths);
        }
        let splits = nodes::inner_splits(self.u, row, depths);
        self.child_walk(rows, c, row, nodes::bound(self.u, depths), splits)
    }

    // A node that is out: it is split.
    #[cycle(at_edge)]
    pub(crate) fn node_at_edge(&self, rows: &mut Scratch, c: u64, row: u64, depths: u32) -> u64
        requires { Asked (read_way self.now.flags.now) Outer self.now.u.now c (word row depths ∷ []) × (corner_inside (limits_in self.now.u.now) (node_in row) ≡ true) × (is_out (limits_in self.now.u.now) (node_in row) ≡ true) }
        ensures { Walked (read_way self.now.flags.now) Outer self.now.u.now c (word row depths ∷ []) rows.old result rows.new }
    {
        let right = nodes::right_out_at(self.u, row);
        let bottom = nodes::bottom_out_at(self.u, row);
        let splits = nodes::out_splits(self.u, row, depths, right, bottom);
        match flags::decide_out(self.flags, nodes::place(c), splits) {
            Err(r) => nodes::refusal(r.reason, r.place),
            Ok((decision, next)) => {
                let c1 = nodes::moved_to(c, next);
                self.children_at_edge(rows, c1, row, depths, decision)
            }
        }
    }

    // The children of a node that is out, where no ternary split is open.
    #[cycle(at_edge)]
    pub(crate) fn children_at_edge(
        &self,
        rows: &mut Scratch,
        c: u64,
        row: u64,
        depths: u32,
        d: Decision,
    ) -> u64
        requires { Asked (read_way self.now.flags.now) Outer self.now.u.now c (outer_kids self.now.u.now row depths d) }
        ensures { Walked (read_way self.now.flags.now) Outer self.now.u.now c (outer_kids self.now.u.now row depths d) rows.old result rows.new }
    {
        match d {
            Decision::Leaf => c,
            Decision::Quad => {
                let k = nodes::depth_above(self.u);
                self.four_at_edge(rows, c, row, k)
            }
            Decision::Binary(v) => {
                let k = nodes::depth_below(self.u, row, depths);
                let row0 = nodes::first_half(row, v);
                let row1 = nodes::second_half(row, v);
                self.pair_at_edge(rows, c, row0, row1, k)
            }
            Decision::Ternary(_) => c,
        }
    }

    // The four children of a quad split.
    #[cycle(at_edge)]
    pub(crate) fn four_at_edge(&self, rows: &mut Scratch, c: u64, row: u64, depths: u32) -> u64
        requires { Asked (read_way self.now.flags.now) Outer self.now.u.now c (four_words row depths) }
        ensures { Walked (read_way self.now.flags.now) Outer self.now.u.now c (four_words row depths) rows.old result rows.new }
    {
        let row0 = nodes::child_row(row, Decision::Quad, 0);
        let first = self.child_at_edge(rows, c, row0, depths);
        let Ok(c1) = child_answer(first) else {
            return first;
        };
        let row1 = nodes::child_row(row, Decision::Quad, 1);
        let second = self.child_at_edge(rows, c1, row1, depths);
        let Ok(c2) = child_answer(second) else {
            return second;
        };
        let row2 = nodes::child_row(row, Decision::Quad, 2);
        let third = self.child_at_edge(rows, c2, row2, depths);
        let Ok(c3) = child_answer(third) else {
            return third;
        };
        let row3 = nodes::child_row(row, Decision::Quad, 3);
        let fourth = self.child_at_edge(rows, c3, row3, depths);
        let Ok(c4) = child_answer(fourth) else {
            return fourth;
        };
        c4
    }

    // The two parts of a binary split.
    #[cycle(at_edge)]
    pub(crate) fn pair_at_edge(
        &self,
        rows: &mut Scratch,
        c: u64,
        row0: u64,
        row1: u64,
        depths: u32,
    ) -> u64
        requires { Asked (read_way self.now.flags.now) Outer self.now.u.now c (word row0 depths ∷ word row1 depths ∷ []) }
        ensures { Walked (read_way self.now.flags.now) Outer self.now.u.now c (word row0 depths ∷ word row1 depths ∷ []) rows.old result rows.new }
    {
        let first = self.child_at_edge(rows, c, row0, depths);
        let Ok(c1) = child_answer(first) else {
            return first;
        };
        let second = self.child_at_edge(rows, c1, row1, depths);
        let Ok(c2) = child_answer(second) else {
            return second;
        };
        c2
    }
}
