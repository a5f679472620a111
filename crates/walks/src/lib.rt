// What the walks of the reader and of the way back have in common: the root that they start from, statements and proofs.
#![tactic(auto)]

ghost use Rattle.std.specs.Prelude.{◌≡◌};
ghost use Rattle.unit.specs.Luma.{limits_of};
ghost use Rattle.unit.specs.Units.{root_of};
ghost use Rattle.walks.specs.Rooted.{UnitRoot};

use settings::{Settings, Square};
use tree::{Limits, Node};

// The root of the luma tree of a unit: the limits of the tree, and its node.
#[derive(Clone, Copy)]
pub struct Root {
    pub limits: Limits,
    pub node: Node,
    ghost unit: { UnitRoot limits node },
}

impl Root {
    // Of the unit that is a square of the picture.
    pub fn of(s: Settings, q: Square) -> Root
        requires { UnitRoot (limits_of s) (root_of q) }
        ensures limits { result.limits ≡ limits_of s }
        ensures node { result.node ≡ root_of q }
    {
        Root {
            limits: unit::limits(s),
            node: unit::root(q),
        }
    }
}
