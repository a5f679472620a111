// The flags of a node: the decision that is read from them, and in `put` the flags that say a decision. A flag is read
// only where it is present; the open splits are tested by their masks.
#![tactic(auto)]

mod put;

ghost use Rattle.std.specs.Prelude.{◌≡◌, true, false, ◌||◌};
ghost use Rattle.tree.specs.Splits as Splits;
ghost use Rattle.tree.specs.Splits.{rights_in, binary_mask, ternary_mask};
ghost use Rattle.tree.specs.Flags as Flags;
ghost use Rattle.tree.specs.Flags.{flag_at, flag_said, choice_said, after_split};
ghost use Rattle.tree.specs.Flags.{quad_flag, vertical_flag, binary_flag};
ghost use Rattle.flags.specs.Out.{decide_out};

pub use put::{Scratch, allowed, put_out, put_split, some_open};
use refusals::{Reason, Refusal};
use tree::{BH, BV, Decision, Direction, QT, TH, TV};

// The masks of the binary and of the ternary split of a direction.
pub fn binary_mask(d: Direction) -> u32
    ensures { result ≡ binary_mask d }
{
    d.pick(BH, BV)
}

pub fn ternary_mask(d: Direction) -> u32
    ensures { result ≡ ternary_mask d }
{
    d.pick(TH, TV)
}

// Whether a cut of a direction is open, and whether any is.
fn cut_open(splits: u32, d: Direction) -> bool
    ensures { result ≡ (Splits.has splits (binary_mask d) || Splits.has splits (ternary_mask d)) }
{
    (splits & binary_mask(d) != 0) | (splits & ternary_mask(d) != 0)
}

fn some_cut(splits: u32) -> bool
    ensures { result ≡ Flags.some_cut (rights_in false splits) }
{
    cut_open(splits, Direction::Horizontal) | cut_open(splits, Direction::Vertical)
}

// Stays: flags, place and open splits are arguments: the place moves on with each flag.
// One flag: the byte at a place where it is present, else what is inferred; and the next place.
#[tactic(auto, unfolding(tree::specs::Flags::flag_at))]
fn read_flag(flags: &[u8], at: usize, there: bool, absent: bool) -> Result<(bool, usize), Refusal>
    ensures { flag_said result ≡ flag_at there absent flags.now at }
{
    if !there {
        return Ok((absent, at));
    }
    if flags.len() <= at {
        return Err(Reason::FlagMissing.at(flags.len()));
    }
    let b = flags[at];
    if b <= 1 {
        Ok((b == 1, at + 1))
    } else {
        Err(Reason::FlagValue.at(at))
    }
}

// Where a node lies plays no part in the next three flags: what their contracts say of one in the picture is the same
// for one that is out.
fn quad_flag(flags: &[u8], at: usize, splits: u32) -> Result<(bool, usize), Refusal>
    ensures { flag_said result ≡ quad_flag (rights_in false splits) flags.now at }
{
    let quad = splits & QT != 0;
    read_flag(flags, at, quad & some_cut(splits), quad)
}

fn vertical_flag(flags: &[u8], at: usize, splits: u32) -> Result<(bool, usize), Refusal>
    ensures { flag_said result ≡ vertical_flag (rights_in false splits) flags.now at }
{
    let flat = cut_open(splits, Direction::Horizontal);
    read_flag(
        flags,
        at,
        flat & cut_open(splits, Direction::Vertical),
        !flat,
    )
}

fn binary_flag(flags: &[u8], at: usize, splits: u32, d: Direction) -> Result<(bool, usize), Refusal>
    ensures { flag_said result ≡ binary_flag (rights_in false splits) flags.now d at }
{
    let binary = splits & binary_mask(d) != 0;
    let ternary = splits & ternary_mask(d) != 0;
    read_flag(flags, at, binary & ternary, binary)
}

// The decision that the flags from a place on give at a node inside the picture that has an open split, and the next
// place: its first flag is present.
#[tactic(auto, unfolding(tree::specs::Flags::after_split, tree::specs::Flags::after_quad, tree::specs::Flags::after_vertical, tree::specs::Flags::after_binary))]
pub fn decide_inside(flags: &[u8], at: usize, splits: u32) -> Result<(Decision, usize), Refusal>
    ensures { choice_said result ≡ after_split (rights_in false splits) flags.now (flag_at true false flags.now at) }
{
    let (split, at) = read_flag(flags, at, true, false)?;
    if !split {
        return Ok((Decision::Leaf, at));
    }
    let (quad, at) = quad_flag(flags, at, splits)?;
    if quad {
        return Ok((Decision::Quad, at));
    }
    let (vertical, at) = vertical_flag(flags, at, splits)?;
    let d = Direction::vertical_if(vertical);
    let (binary, at) = binary_flag(flags, at, splits, d)?;
    if binary {
        Ok((Decision::Binary(d), at))
    } else {
        Ok((Decision::Ternary(d), at))
    }
}

// The same at a node that is out and has one open cut at most, a binary one: it is split, and its only flag is the
// quad one.
#[tactic(auto, unfolding(crate::specs::Out::after_quad_out))]
pub fn decide_out(flags: &[u8], at: usize, splits: u32) -> Result<(Decision, usize), Refusal>
    ensures { choice_said result ≡ decide_out splits flags.now at }
{
    let (quad, at) = quad_flag(flags, at, splits)?;
    if quad {
        return Ok((Decision::Quad, at));
    }
    let vertical = splits & BH == 0;
    Ok((Decision::Binary(Direction::vertical_if(vertical)), at))
}
