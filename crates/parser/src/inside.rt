// The reading of nodes inside the picture. The open splits of siblings are found once, by their parent, and a leaf is
// met by its parent, so that only splits cost a call.
// Stays: a walk answers one number: as `Result<u64, u64>`, which comes back in two registers, it takes 6 to 8 % more
// instructions.
// Stays: its twin in crate back is no other instance of one walk: the check has no proof of a cycle through a trait's
// method ("a method of the block leads back to this function").
// Stays: the numbers of a node are arguments: in a struct by value a walk takes 8 to 10 % more instructions.
// Stays: the table of rows is an argument and no field: each contract would have to say that the other fields stay,
// which is no plainer.
ghost use Rattle.std.specs.Prelude.{◌≡◌, false, [], ◌∷◌, ◌+◌, ◌<◌, ◌^◌, ◌%◌, length, set};
ghost use Rattle.nodes.specs.State.{given_of};
ghost use Rattle.walks.specs.Stands.{word, Inside};
ghost use Rattle.tree.specs.declared.Decision.TheVariants.{Quad, Binary, Ternary};
ghost use Rattle.walks.specs.Kids.{inner_kids};
ghost use Rattle.walks.specs.Walks.{Asked, Walked};
ghost use Rattle.parser.specs.Walking.{read_way, zero_next};

use crate::reading::{Reading, Scratch};
use nodes::child_answer;
use refusals::Reason;
use tree::{CUTS, Decision, Direction, QT};

// Whether the next flag is 0.
fn zero_next(flags: &[u8], c: u64) -> bool
    ensures { result ≡ zero_next flags.now c }
{
    let at = nodes::place(c);
    if at < flags.len() {
        flags[at] == 0
    } else {
        false
    }
}

// A leaf, after its flags.
fn leaf(rows: &mut Scratch, c: u64, row: u64) -> u64
    requires { given_of c < 1024 }
    ensures { (result ≡ (c + 4294967296) % 2 ^ 64) × (rows.new ≡ set rows.old (given_of c) row) }
{
    rows[nodes::count(c)] = row;
    nodes::one_more(c)
}

impl<'a> Reading<'a> {
    // A child whose open splits its parent knows.
    #[cycle(walk)]
    pub(crate) fn child_walk(
        &self,
        rows: &mut Scratch,
        c: u64,
        row: u64,
        bound: u64,
        splits: u32,
    ) -> u64
        requires { Asked (read_way self.now.flags.now) (Inside bound) self.now.u.now c (word row splits ∷ []) }
        ensures { Walked (read_way self.now.flags.now) (Inside bound) self.now.u.now c (word row splits ∷ []) rows.old result rows.new }
    {
        if splits == 0 {
            return leaf(rows, c, row);
        }
        if zero_next(self.flags, c) {
            return leaf(rows, nodes::further(c, 1), row);
        }
        self.node_walk(rows, c, row, bound, splits)
    }

    // Reads a node of which some split is open and whose next flag is not 0. Two callers keep it a function of its own;
    // without its first test the reading takes 14 to 70 % more time (docs/DECISIONS.md).
    #[cycle(walk)]
    pub(crate) fn node_walk(
        &self,
        rows: &mut Scratch,
        c: u64,
        row: u64,
        bound: u64,
        splits: u32,
    ) -> u64
        requires { Asked (read_way self.now.flags.now) (Inside bound) self.now.u.now c (word row splits ∷ []) × ¬ (splits ≡ 0) × (zero_next self.now.flags.now c ≡ false) }
        ensures { Walked (read_way self.now.flags.now) (Inside bound) self.now.u.now c (word row splits ∷ []) rows.old result rows.new }
    {
        let at = nodes::place(c);
        if self.flags.len() <= at {
            return nodes::refusal(Reason::FlagMissing, self.flags.len());
        }
        match flags::decide_inside(self.flags, at, splits) {
            Err(r) => nodes::refusal(r.reason, r.place),
            Ok((decision, next)) => {
                let c1 = nodes::moved_to(c, next);
                self.children_walk(rows, c1, row, bound, decision)
            }
        }
    }

    // The children of a decision, in coding order.
    #[cycle(walk)]
    pub(crate) fn children_walk(
        &self,
        rows: &mut Scratch,
        c: u64,
        row: u64,
        bound: u64,
        d: Decision,
    ) -> u64
        requires { Asked (read_way self.now.flags.now) (Inside bound) self.now.u.now c (inner_kids self.now.u.now row bound d) }
        ensures { Walked (read_way self.now.flags.now) (Inside bound) self.now.u.now c (inner_kids self.now.u.now row bound d) rows.old result rows.new }
    {
        match d {
            Decision::Leaf => c,
            Decision::Quad => self.four_walk(rows, c, row, bound),
            Decision::Binary(v) => self.two_walk(rows, c, row, v, bound),
            Decision::Ternary(v) => self.three_walk(rows, c, row, v, bound),
        }
    }

    // The four children of a quad split.
    #[cycle(walk)]
    pub(crate) fn four_walk(&self, rows: &mut Scratch, c: u64, row: u64, bound: u64) -> u64
        requires { Asked (read_way self.now.flags.now) (Inside bound) self.now.u.now c (inner_kids self.now.u.now row bound Quad) }
        ensures { Walked (read_way self.now.flags.now) (Inside bound) self.now.u.now c (inner_kids self.now.u.now row bound Quad) rows.old result rows.new }
    {
        let row0 = nodes::child_row(row, Decision::Quad, 0);
        let m = nodes::open_below(self.u, row0, bound, CUTS, QT);
        let first = self.child_walk(rows, c, row0, bound, m);
        let Ok(c1) = child_answer(first) else {
            return first;
        };
        let row1 = nodes::child_row(row, Decision::Quad, 1);
        let second = self.child_walk(rows, c1, row1, bound, m);
        let Ok(c2) = child_answer(second) else {
            return second;
        };
        let row2 = nodes::child_row(row, Decision::Quad, 2);
        let third = self.child_walk(rows, c2, row2, bound, m);
        let Ok(c3) = child_answer(third) else {
            return third;
        };
        let row3 = nodes::child_row(row, Decision::Quad, 3);
        let fourth = self.child_walk(rows, c3, row3, bound, m);
        let Ok(c4) = child_answer(fourth) else {
            return fourth;
        };
        c4
    }

    // The two parts of a binary split.
    #[cycle(walk)]
    pub(crate) fn two_walk(
        &self,
        rows: &mut Scratch,
        c: u64,
        row: u64,
        v: Direction,
        bound: u64,
    ) -> u64
        requires { Asked (read_way self.now.flags.now) (Inside bound) self.now.u.now c (inner_kids self.now.u.now row bound (Binary v)) }
        ensures { Walked (read_way self.now.flags.now) (Inside bound) self.now.u.now c (inner_kids self.now.u.now row bound (Binary v)) rows.old result rows.new }
    {
        let row0 = nodes::first_half(row, v);
        let row1 = nodes::second_half(row, v);
        let m = nodes::open_below(self.u, row0, bound, CUTS, 0);
        let first = self.child_walk(rows, c, row0, bound, m);
        let Ok(c1) = child_answer(first) else {
            return first;
        };
        let second = self.child_walk(rows, c1, row1, bound, m);
        let Ok(c2) = child_answer(second) else {
            return second;
        };
        c2
    }

    // The three parts of a ternary split; the middle one has fewer splits open.
    #[cycle(walk)]
    pub(crate) fn three_walk(
        &self,
        rows: &mut Scratch,
        c: u64,
        row: u64,
        v: Direction,
        bound: u64,
    ) -> u64
        requires { Asked (read_way self.now.flags.now) (Inside bound) self.now.u.now c (inner_kids self.now.u.now row bound (Ternary v)) }
        ensures { Walked (read_way self.now.flags.now) (Inside bound) self.now.u.now c (inner_kids self.now.u.now row bound (Ternary v)) rows.old result rows.new }
    {
        let row0 = nodes::first_third(row, v);
        let m = nodes::open_below(self.u, row0, bound, CUTS, 0);
        let first = self.child_walk(rows, c, row0, bound, m);
        let Ok(c1) = child_answer(first) else {
            return first;
        };
        let row1 = nodes::middle_third(row, v);
        let middle = nodes::open_below(self.u, row1, bound, nodes::middle_cuts(v), 0);
        let second = self.child_walk(rows, c1, row1, bound, middle);
        let Ok(c2) = child_answer(second) else {
            return second;
        };
        let row2 = nodes::last_third(row, v);
        let third = self.child_walk(rows, c2, row2, bound, m);
        let Ok(c3) = child_answer(third) else {
            return third;
        };
        c3
    }
}
