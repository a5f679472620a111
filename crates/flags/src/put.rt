// The flags that say a decision, written after those before them. A flag is written also where it is absent, and then
// not counted: so the contracts are about the flags that are counted.
ghost use Rattle.std.specs.Prelude.{◌≡◌, true, false, ◌&&◌, ◌++◌, ◌+◌, ◌≤◌, ◌<◌};
ghost use Rattle.tree.specs.declared.Decision.TheVariants.{Leaf, Binary, Ternary};
ghost use Rattle.tree.specs.Splits.{rights_in, allows, is_split, has, pick};
ghost use Rattle.tree.specs.Flags.{some_open, flag_byte, flags_for};
ghost use Rattle.flags.specs.Puts.{Follows, is_quad};

use crate::{binary_mask, some_cut, ternary_mask};
use tree::{BH, BV, Decision, Direction, QT, TH, TV};

// Whether the open splits of a node, inside the picture or out of it, allow a decision.
pub fn allowed(out: bool, splits: u32, d: Decision) -> bool
    ensures { result ≡ allows (rights_in out splits) d }
{
    match d {
        Decision::Leaf => !out,
        Decision::Quad => splits & QT != 0,
        Decision::Binary(v) => splits & binary_mask(v) != 0,
        Decision::Ternary(v) => splits & ternary_mask(v) != 0,
    }
}

// A scratch table of flags: room for all that a way back may put, also one that is refused.
// Stays: an array of fixed size, since the library allocates nothing.
pub type Scratch = [u8; 2048];

// Stays: how many flags the table has is a number beside it, since the walks carry it in theirs.
// One flag, where it is present; answers how many flags there are then.
fn put(flags: &mut Scratch, n: usize, there: bool, value: bool) -> usize
    requires { n < 2048 }
    ensures { Follows flags.old n (flag_byte there value) flags.new result × (result ≤ n + 1) }
{
    flags[n] = value as u8;
    n + there as usize
}

// Whether some split is open; where a node lies plays no part.
pub fn some_open(splits: u32) -> bool
    ensures { result ≡ some_open (rights_in false splits) }
{
    (splits & QT != 0) | some_cut(splits)
}

// The flags of an open cut after the split flag, given the mask of the other cut of its direction.
fn put_cut(
    flags: &mut Scratch,
    n: usize,
    splits: u32,
    v: Direction,
    other: u32,
    binary: bool,
) -> usize
    requires { n + 3 ≤ 2048 }
    ensures { Follows flags.old n (flag_byte (has splits 1) false ++ (flag_byte (has splits (pick v 20 10)) (pick v false true) ++ flag_byte (has splits other) binary)) flags.new result }
{
    let quad_end = put(flags, n, splits & QT != 0, false);
    let vertical_end = put(
        flags,
        quad_end,
        splits & v.pick(BV + TV, BH + TH) != 0,
        v.pick(false, true),
    );
    put(flags, vertical_end, splits & other != 0, binary)
}

// The flags of an open split of a node inside the picture.
pub fn put_split(flags: &mut Scratch, n: usize, splits: u32, d: Decision) -> usize
    requires { (n + 4 ≤ 2048) × (is_split d ≡ true) × (allows (rights_in false splits) d ≡ true) }
    ensures { Follows flags.old n (flags_for (rights_in false splits) d) flags.new result }
{
    flags[n] = 1;
    match d {
        Decision::Leaf => n,
        Decision::Quad => put(flags, n + 1, some_cut(splits), true),
        Decision::Binary(v) => put_cut(flags, n + 1, splits, v, ternary_mask(v), true),
        Decision::Ternary(v) => put_cut(flags, n + 1, splits, v, binary_mask(v), false),
    }
}

// The flags of an open split of a node that is out: no ternary cut is open, and not both binary ones.
pub fn put_out(flags: &mut Scratch, n: usize, splits: u32, d: Decision) -> usize
    requires { (n + 4 ≤ 2048) × (allows (rights_in true splits) d ≡ true) × (has splits 8 ≡ false) × (has splits 16 ≡ false) × ((has splits 2 && has splits 4) ≡ false) }
    ensures { Follows flags.old n (flags_for (rights_in true splits) d) flags.new result }
{
    put(
        flags,
        n,
        (splits & QT != 0) & (splits & (BH + BV) != 0),
        matches!(d, Decision::Quad),
    )
}
