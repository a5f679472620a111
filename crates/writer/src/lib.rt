// The way back of a single unit: rows become the flags that give them, or the refusals of its settings, 10, 15, 27, 28, 16
// and 17. It is a test, which can be called alone, and the delivery of the flags.
#![tactic(auto)]

mod deliver;
mod test;

ghost use Rattle.std.specs.Prelude.{◌≡◌, ◌%◌, length};
ghost use Rattle.settings.specs.Units.{unit_count, square_at, refusal_at, located_by};
ghost use Rattle.tree.specs.Kind.{luma};
ghost use Rattle.refusals.specs.Said.{said};
ghost use Rattle.unit.specs.Answers.{Meets};
ghost use Rattle.unit.specs.Luma.{kind_of, limits_of};
ghost use Rattle.unit.specs.Usable.{Usable};
ghost use Rattle.unit.specs.Writer.{write_rows, write_located, write_in, write_flags};

// Stays: address, rows and flags are three arguments, as the C interface has them.
use refusals::Reason;
use settings::Settings;
pub use test::{test_table, test_unit};
use unit::{Answer, Coding};
use walks::Root;

// The way back of whole rows: the test by a walk, and the delivery of its flags.
fn write_all(root: Root, rows: &[u8], flags: &mut [u8]) -> Answer
    requires { length rows.now % 8 ≡ 0 }
    ensures { Meets (write_rows (luma root.limits) root.node rows.now flags.old) (said result) flags.new }
{
    let mut scratch = [0u8; 2048];
    let answer = test::walk_all(root.limits, root.node, rows, &mut scratch);
    let Ok(end) = nodes::child_answer(answer) else {
        return Err(test::stuck_end(root.limits, root.node, rows));
    };
    let n = test::walk_end(end, rows)?;
    deliver::all_flags(n, &scratch, flags)
}

// The way back of a table of whole rows by a walk, or refusal 15.
#[tactic(auto, using(crate::proofs::Whole::rows_refused))]
fn walk_rows(root: Root, rows: &[u8], flags: &mut [u8]) -> Answer
    ensures { Meets (write_rows (luma root.limits) root.node rows.now flags.old) (said result) flags.new }
{
    if rows.len() % 8 != 0 {
        return Err(Reason::RowBytes.at(rows.len() / 8));
    }
    write_all(root, rows, flags)
}

// The way back of a table of whole rows, or refusal 15; a root that is a leaf needs no walk.
fn write_rows(root: Root, rows: &[u8], flags: &mut [u8]) -> Answer
    ensures { Meets (write_rows (luma root.limits) root.node rows.now flags.old) (said result) flags.new }
{
    if test::is_leaf(root, rows) {
        return deliver::leaf_flags(test::leaf_splits(root), flags);
    }
    walk_rows(root, rows, flags)
}

// Turns the rows of the unit at an address of an H.266 picture back: answers the number of its flags, which are then the
// first bytes of the flag buffer, or a refusal, which leaves the buffer as it was.
// Stays: `write_checked` at H.266's settings would say the same, but taken out of its entry one row took 13 to 19 ns
// for 11.5.
pub fn write_flags(s: Settings, address: usize, rows: &[u8], flags: &mut [u8]) -> Answer
    ensures { Meets (write_flags s address rows.now flags.old) (said result) flags.new }
{
    let q = settings::unit_at(s, address)?;
    write_rows(Root::of(s, q), rows, flags)
}

// The way back of the unit at an address, by H.266's numbers for its trees, where the settings that they stand for are
// taken.
fn write_luma(s: Settings, address: usize, rows: &[u8], flags: &mut [u8]) -> Answer
    requires { Usable s.ctu (limits_of s) }
    ensures { Meets (write_located (kind_of s) (located_by (refusal_at 0 (unit_count s) address) (square_at s address)) rows.now flags.old) (said result) flags.new }
{
    let q = settings::locate(s.ctu, s.width, s.height, address)?;
    let root = Root::of(s, q);
    if test::is_quad_leaf(root, rows) {
        return deliver::leaf_flags(1, flags);
    }
    walk_rows(root, rows, flags)
}

// The way back of the unit at an address, by any settings: H.265's. It shares the walk with `write_flags` and not the way
// to it, for else the compiler would take both out of the entries, and H.266's one row would take more time
// (docs/DECISIONS.md).
pub fn write_checked<S: Coding>(s: S, address: usize, rows: &[u8], flags: &mut [u8]) -> Answer
    ensures { Meets (write_in (S.units s) address rows.now flags.old) (said result) flags.new }
{
    s.check()?;
    write_luma(s.as_luma(), address, rows, flags)
}
