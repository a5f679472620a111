// The open splits of a node as one number: H.266 clauses 6.4.1 to 6.4.3. The binary and the ternary rule stand once,
// the direction a parameter. Every number may have any value: sums are taken in 64 bits.
#![tactic(auto)]

ghost use Rattle.std.specs.Prelude.{◌≡◌, ◌+◌, ◌≤◌, ltb};
ghost use Rattle.tree.specs.Kind.{luma};
ghost use Rattle.tree.specs.Splits as Splits;
ghost use Rattle.tree.specs.Splits.{right_out, bottom_out, is_out, parent_ternary, quad_open};
ghost use Rattle.tree.specs.Splits.{binary_needs, binary_closed, binary_open};
ghost use Rattle.tree.specs.Splits.{closed_middle, ternary_open, rights_of, open_splits};

use tree::{BH, BV, Decision, Direction, Limits, Node, QT, TH, TV};

// Stays: limits, node and direction are arguments, in the order of the definitions (`binary_open l n d`).
// Whether a number is below the sum of two.
fn below_sum(a: u32, b: u32, c: u32) -> bool
    ensures { result ≡ ltb a (b + c) }
{
    u64::from(a) < u64::from(b) + u64::from(c)
}

fn right_out(l: Limits, n: Node) -> bool
    ensures { result ≡ right_out l n }
{
    below_sum(l.width, n.x, n.w)
}

fn bottom_out(l: Limits, n: Node) -> bool
    ensures { result ≡ bottom_out l n }
{
    below_sum(l.height, n.y, n.h)
}

// Whether a node is out of the picture, at the right or at the bottom.
pub fn out(l: Limits, n: Node) -> bool
    ensures { result ≡ is_out l n }
{
    right_out(l, n) | bottom_out(l, n)
}

fn quad_open(l: Limits, n: Node) -> bool
    ensures { result ≡ quad_open l n }
{
    (n.mtt == 0) & (l.minqt < n.w)
}

// Whether the depth bound leaves room for a cut: D < M + F.
fn below_depth_bound(l: Limits, n: Node) -> bool
    ensures { result ≡ ltb n.mtt (l.maxmtt + n.offset) }
{
    below_sum(n.mtt, l.maxmtt, n.offset)
}

fn binary_needs(l: Limits, n: Node, d: Direction) -> bool
    ensures { result ≡ binary_needs l n d }
{
    (l.mincb < d.pick(n.h, n.w)) & (n.w <= l.maxbt) & (n.h <= l.maxbt) & below_depth_bound(l, n)
}

fn parent_ternary(d: Direction, parent: Decision) -> bool
    ensures { result ≡ parent_ternary d parent }
{
    match parent {
        Decision::Leaf | Decision::Quad | Decision::Binary(_) => false,
        Decision::Ternary(e) => d == e,
    }
}

fn closed_middle(n: Node, d: Direction) -> bool
    ensures { result ≡ closed_middle n d }
{
    (0 < n.mtt) & (n.part == 1) & parent_ternary(d, n.parent)
}

#[tactic(auto, unfolding(tree::specs::Splits::binary_closed))]
fn binary_closed(l: Limits, n: Node, d: Direction) -> bool
    ensures { result ≡ binary_closed l n d }
{
    let right = right_out(l, n);
    let bottom = bottom_out(l, n);
    let along = d.pick(n.h, n.w);
    let across = d.pick(n.w, n.h);
    (d.pick(right, bottom) & d.pick(!bottom, true))
        | ((64 < across) & d.pick(bottom, right))
        | (right & bottom & (l.minqt < n.w))
        | closed_middle(n, d)
        | ((along <= 64) & (64 < across))
}

#[tactic(auto, unfolding(tree::specs::Splits::binary_open))]
fn binary_open(l: Limits, n: Node, d: Direction) -> bool
    ensures { result ≡ binary_open l n d }
{
    binary_needs(l, n, d) & !binary_closed(l, n, d)
}

#[tactic(auto, unfolding(tree::specs::Splits::ternary_open))]
fn ternary_open(l: Limits, n: Node, d: Direction) -> bool
    ensures { result ≡ ternary_open l n d }
{
    let side = u32::min(64, l.maxtt);
    (2 * u64::from(l.mincb) < u64::from(d.pick(n.h, n.w)))
        & (n.w <= side)
        & (n.h <= side)
        & below_depth_bound(l, n)
        & !out(l, n)
}

// A mask where a test holds, else 0.
pub fn bit(b: bool, mask: u32) -> u32
    ensures { (result ≡ Splits.bit b mask) × (result ≤ mask) }
{
    if b { mask } else { 0 }
}

// The open splits of a node of a luma tree: the sum of QT 1, BH 2, BV 4, TH 8, TV 16 for those open.
#[tactic(auto, unfolding(tree::specs::Splits::rights_of, tree::specs::Splits::open_splits))]
pub fn open_splits(l: Limits, n: Node) -> u32
    ensures { result ≡ open_splits (rights_of (luma l) n) }
{
    bit(quad_open(l, n), QT)
        + bit(binary_open(l, n, Direction::Horizontal), BH)
        + bit(binary_open(l, n, Direction::Vertical), BV)
        + bit(ternary_open(l, n, Direction::Horizontal), TH)
        + bit(ternary_open(l, n, Direction::Vertical), TV)
}
