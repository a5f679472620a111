// The walk of the way back: the rows of a tree, of any kind, become its flags, in a scratch table, or it is
// refused; number and place are then found by crate search.
#![tactic(auto)]

mod edge;
mod inside;

ghost use Rattle.std.specs.Prelude.{◌≡◌, ◌/◌, ◌%◌, length};
ghost use Rattle.tree.specs.Kind.{Kind};
ghost use Rattle.tree.specs.declared.Node as Nodes;
ghost use Rattle.tree.specs.Rows.{rows_in};
ghost use Rattle.tree.specs.Back.{back_node};
ghost use Rattle.nodes.specs.State.{place_of};
ghost use Rattle.walks.specs.Rooted.{Given, SomeRoot};
ghost use Rattle.walks.specs.Walks.{Done};
ghost use Rattle.marks.specs.Table.{rows_left};
ghost use Rattle.marks.specs.Marks.{Read};
ghost use Rattle.back.specs.Walking.{back_way, Starts};

use flags::Scratch;
use marks::{Marks, same_row};
use nodes::Table;

// Stays: a root's numbers are arguments, as the walks and their contracts have them (`SomeRoot`, `Given`).
// The walk of a root, from any row on. One that is out is above all cuts, as a child of a quad split is. One inside the
// picture is met as a child is: the second caller keeps `node_back` a function of its own, so that a leaf is met without
// a call.
fn root_back(
    u: &Table,
    rows: &[u8],
    flags: &mut Scratch,
    marks: &Marks,
    c: u64,
    row: u64,
    out: bool,
    splits: u32,
) -> u64
    requires { SomeRoot u.now row out splits × Starts rows.now c row × Read u.now rows.now marks.now }
    ensures { (k : Kind) (root : Nodes.Node) → Given k root u.now row out splits → Done (back_way rows.now) (back_node k root (rows_left rows.now (place_of c / 8))) c flags.old result flags.new }
{
    if out {
        return edge::node_back(u, rows, flags, marks, c, row, nodes::depth_above(u));
    }
    let bound = nodes::bound(u, 0);
    if same_row(rows, nodes::place(c), row) {
        return inside::leaf(flags, c, splits);
    }
    inside::node_back(u, rows, flags, marks, c, row, bound, splits)
}

// The way back of a whole tree, from the numbers of its root: whole rows become flags in a scratch table.
pub fn tree_back(
    u: &Table,
    rows: &[u8],
    flags: &mut Scratch,
    row: u64,
    out: bool,
    splits: u32,
) -> u64
    requires { SomeRoot u.now row out splits × (length rows.now % 8 ≡ 0) × (length flags.old ≡ 2048) }
    ensures { (k : Kind) (root : Nodes.Node) → Given k root u.now row out splits → Done (back_way rows.now) (back_node k root (rows_in rows.now)) 0 flags.old result flags.new }
{
    let mut marks = [4294967295u32; 2048];
    marks::mark_tree(u, rows, &mut marks);
    root_back(u, rows, flags, &marks, 0, row, out, splits)
}
