// Where a table stops being a tree: how many leading rows some tree's table begins with, of any kind. Only rows that the
// way back refuses are searched, so this may be slower: it tries every decision that the next row leaves.
#![tactic(auto)]

mod node;
mod parts;

ghost use Rattle.std.specs.Prelude.{◌≡◌, ℕ, ◌-◌, ◌/◌, ◌%◌, length};
ghost use Rattle.tree.specs.Kind.{Kind};
ghost use Rattle.tree.specs.declared.Node as Nodes;
ghost use Rattle.tree.specs.Rows.{rows_in};
ghost use Rattle.tree.specs.Search.{stuck, fit_node};
ghost use Rattle.walks.specs.Rooted.{Given, SomeRoot};

use node::Search;
use nodes::Table;

// Stays: a root's numbers are arguments, as the walks and their contracts have them (`SomeRoot`, `Given`).
// The most leading rows with which some tree's table begins, of a root, by its numbers; whole rows that begin with no
// tree's whole table.
pub fn leading_rows(u: &Table, rows: &[u8], row: u64, out: bool, splits: u32) -> usize
    requires { SomeRoot u.now row out splits × (length rows.now % 8 ≡ 0) }
    ensures { (k : Kind) (root : Nodes.Node) → Given k root u.now row out splits → (left : ℕ) → fit_node k root (rows_in rows.now) ≡ stuck left → result ≡ length rows.now / 8 - left }
{
    if rows.len() == 0 {
        return 0;
    }
    let depths = nodes::depth_above(u);
    let search = Search { u, rows };
    let answer = search.node_search(0, row, depths, out, splits);
    nodes::refusal_place(answer)
}
