// The reader of a single unit: flags become rows, or the refusals of its settings and 10 to 14.
#![tactic(auto)]

mod deliver;

ghost use Rattle.std.specs.Prelude.{◌≡◌, false};
ghost use Rattle.settings.specs.Units.{unit_count, square_at, refusal_at, located_by};
ghost use Rattle.tree.specs.Kind.{Kind, luma};
ghost use Rattle.tree.specs.declared.Node as Nodes;
ghost use Rattle.refusals.specs.Said.{said};
ghost use Rattle.unit.specs.Answers.{Meets};
ghost use Rattle.unit.specs.Luma.{kind_of, limits_of};
ghost use Rattle.unit.specs.Usable.{Usable};
ghost use Rattle.unit.specs.Reader.{read_tree, read_located, read_in};
ghost use Rattle.walks.specs.Rooted.{Given, SomeRoot};
ghost use Rattle.parser.specs.Walking.{leaf_next};

// Stays: address, flags and rows are three arguments, as the C interface and the session's call have them.
use nodes::Table;
use settings::Settings;
use unit::{Answer, Coding};
use walks::Root;

// The reading of a whole tree by a walk into a scratch table of 1,024 rows.
fn read_all(u: &Table, row: u64, out: bool, splits: u32, flags: &[u8], rows: &mut [u8]) -> Answer
    requires { SomeRoot u.now row out splits × (leaf_next out splits flags.now 0 ≡ false) }
    ensures { (k : Kind) (root : Nodes.Node) → Given k root u.now row out splits → Meets (read_tree k root flags.now rows.old) (said result) rows.new }
{
    let mut scratch = [0u64; 1024];
    let answer = parser::root_walk(u, flags, &mut scratch, 0, row, out, splits);
    deliver::all_rows(answer, &scratch, flags, rows)
}

// The reading of a whole tree; a root that is a leaf needs no walk.
fn read_tree(root: Root, flags: &[u8], rows: &mut [u8]) -> Answer
    ensures { Meets (read_tree (luma root.limits) root.node flags.now rows.old) (said result) rows.new }
{
    let out = splits::out(root.limits, root.node);
    // QT is open at most roots, and then no other split plays a part in a leaf.
    if root.limits.minqt < root.node.w {
        if deliver::is_leaf(out, 1, flags) {
            return deliver::one_row(root.node, 1, flags, rows);
        }
    }
    let splits = splits::open_splits(root.limits, root.node);
    if deliver::is_leaf(out, splits, flags) {
        return deliver::one_row(root.node, deliver::leaf_count(splits), flags, rows);
    }
    let u = nodes::luma_table(root.limits);
    read_all(&u, blocks::row_word(root.node), out, splits, flags, rows)
}

// The reading of the unit at an address, by H.266's numbers for its trees, where the settings that they stand for are taken.
fn read_checked(s: Settings, address: usize, flags: &[u8], rows: &mut [u8]) -> Answer
    requires { Usable s.ctu (limits_of s) }
    ensures { Meets (read_located (kind_of s) (located_by (refusal_at 0 (unit_count s) address) (square_at s address)) flags.now rows.old) (said result) rows.new }
{
    let q = settings::locate(s.ctu, s.width, s.height, address)?;
    read_tree(Root::of(s, q), flags, rows)
}

// Reads the flags of the unit at an address of a picture: answers the number of its rows, which are then the first bytes of
// the row buffer, or a refusal, the settings' own and 10 to 14, which leaves the buffer as it was.
pub fn read_unit<S: Coding>(s: S, address: usize, flags: &[u8], rows: &mut [u8]) -> Answer
    ensures { Meets (read_in (S.units s) address flags.now rows.old) (said result) rows.new }
{
    // Taken before the check: after that call the numbers would be loaded from memory and stored again.
    let luma = s.as_luma();
    s.check()?;
    read_checked(luma, address, flags, rows)
}

// The same by settings that have passed their check, as those of a session where a unit is due: refusals 10 to 14.
pub fn read_passed<S: Coding>(s: S, address: usize, flags: &[u8], rows: &mut [u8]) -> Answer
    requires { (S.units s).refusal ≡ 0 }
    ensures { Meets (read_in (S.units s) address flags.now rows.old) (said result) rows.new }
{
    read_checked(s.as_luma(), address, flags, rows)
}
