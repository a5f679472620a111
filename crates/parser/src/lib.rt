// The walk of the reading: the flags of a tree, of any kind, become its rows, in a scratch table, or refusal 11 or 12.
#![tactic(auto)]

mod edge;
mod inside;
mod reading;

ghost use Rattle.std.specs.Prelude.{◌≡◌, false, length};
ghost use Rattle.tree.specs.Kind.{Kind};
ghost use Rattle.tree.specs.Reading.{read_node};
ghost use Rattle.tree.specs.declared.Node as Nodes;
ghost use Rattle.nodes.specs.State.{place_of};
ghost use Rattle.walks.specs.Rooted.{Given, SomeRoot, RoomFor};
ghost use Rattle.walks.specs.Walks.{Done};
ghost use Rattle.parser.specs.Walking.{read_way, leaf_next};

use nodes::Table;
use reading::Reading;
pub use reading::Scratch;

// Stays: a root's numbers are arguments, as the walks and their contracts have them (`SomeRoot`, `Given`).
// The walk of a root that is no leaf, from any place of the flags that leaves its own below 2^31. One that is out is
// above all cuts, as a child of a quad split is.
pub fn root_walk(
    u: &Table,
    flags: &[u8],
    rows: &mut Scratch,
    c: u64,
    row: u64,
    out: bool,
    splits: u32,
) -> u64
    requires { SomeRoot u.now row out splits × RoomFor (read_way flags.now) c row × (leaf_next out splits flags.now c ≡ false) × (length rows.old ≡ 1024) }
    ensures { (k : Kind) (root : Nodes.Node) → Given k root u.now row out splits → Done (read_way flags.now) (read_node k flags.now root (place_of c)) c rows.old result rows.new }
{
    let reading = Reading { u, flags };
    if out {
        return reading.node_at_edge(rows, c, row, nodes::depth_above(u));
    }
    reading.node_walk(rows, c, row, nodes::bound(u, 0), splits)
}
