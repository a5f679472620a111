// One coding tree unit: the answers of the calls on it, and its luma tree.
#![tactic(auto)]

mod coding;

ghost use Rattle.std.specs.Prelude.{◌≡◌};
ghost use Rattle.unit.specs.Luma.{limits_of};
ghost use Rattle.unit.specs.Units.{root_of};

pub use coding::{Coding, unit_count};
use refusals::Refusal;
use settings::{Settings, Square};
use tree::{Decision, Limits, Node};

// The answer of a call: how many rows, flags or bytes of a page there are, or which of two tables is finer, or a refusal.
pub type Answer = Result<usize, Refusal>;

// The limits of the luma tree of a unit with these settings.
// Stays: a `From` would stand in the crate of one of the two types, and neither crate knows the other; so for `root`.
pub fn limits(s: Settings) -> Limits
    ensures { result ≡ limits_of s }
{
    Limits {
        mincb: s.mincb,
        minqt: s.minqt,
        maxmtt: s.maxmtt,
        maxbt: s.maxbt,
        maxtt: s.maxtt,
        width: s.width,
        height: s.height,
    }
}

// The root node of a unit's tree, from the unit's square.
pub fn root(q: Square) -> Node
    ensures { result ≡ root_of q }
{
    Node {
        x: q.x,
        y: q.y,
        w: q.side,
        h: q.side,
        qt: 0,
        mtt: 0,
        offset: 0,
        part: 0,
        parent: Decision::Leaf,
    }
}
