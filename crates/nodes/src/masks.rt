// What the walks of one tree are given: the limits of its kind, and the splits that each side, and the area, let open.
ghost use Rattle.std.specs.Prelude.{◌≡◌};
ghost use Rattle.tree.specs.Kind.{luma};
ghost use Rattle.tree.specs.Splits.{open_splits};
ghost use Rattle.nodes.specs.Tables.{side_rights, table_of};

use tree::{BH, BV, CUTS, Direction, Limits, QT, TH, TV};

// The limits, a zero, and the masks of the widths and of the heights 4 to 128, and of the areas 16 to 16,384.
// Stays: one array, since the definitions of the walks take a kind as one list (`table_of`, `limits_in`), so that
// another kind is another list.
pub type Table = [u32; 31];

// The places in it: of M,
pub(crate) const DEPTH_BOUND: usize = 2;
// of the picture's width
pub(crate) const PICTURE_WIDTH: usize = 5;
// and height,
pub(crate) const PICTURE_HEIGHT: usize = 6;
// and what the place of a mask is beyond an exponent: the width's,
pub(crate) const WIDTH_MASKS: usize = 6;
// the height's
pub(crate) const HEIGHT_MASKS: usize = 12;
// and the area's, which is the sum of both.
pub(crate) const AREA_MASKS: usize = 16;

// Stays: limits, direction and side are arguments, the three of the definition (`side_rights e l s`).
// Whether a side lets a cut of direction d open: the side is the height where e is horizontal, the width where it is
// vertical.
fn binary_by(l: Limits, e: Direction, s: u32, d: Direction) -> bool
    ensures { result ≡ (side_rights e l s).binary d }
{
    (s <= l.maxbt) & (if d == e { l.mincb < s } else { s <= 64 })
}

fn ternary_by(l: Limits, e: Direction, s: u32, d: Direction) -> bool
    ensures { result ≡ (side_rights e l s).ternary d }
{
    (s <= u32::min(64, l.maxtt))
        & (if d == e {
            2 * (l.mincb as u64) < (s as u64)
        } else {
            true
        })
}

fn quad_by(l: Limits, e: Direction, s: u32) -> bool
    ensures { result ≡ (side_rights e l s).quad }
{
    match e {
        Direction::Horizontal => true,
        Direction::Vertical => l.minqt < s,
    }
}

// The splits that a side lets open, as one number.
#[tactic(auto, unfolding(tree::specs::Splits::open_splits))]
fn side_mask(l: Limits, e: Direction, s: u32) -> u32
    ensures { result ≡ open_splits (side_rights e l s) }
{
    splits::bit(quad_by(l, e, s), QT)
        + splits::bit(binary_by(l, e, s, Direction::Horizontal), BH)
        + splits::bit(binary_by(l, e, s, Direction::Vertical), BV)
        + splits::bit(ternary_by(l, e, s, Direction::Horizontal), TH)
        + splits::bit(ternary_by(l, e, s, Direction::Vertical), TV)
}

// Every split is open.
const ALL: u32 = QT + CUTS;

// The table of the luma tree with these limits: it closes nothing by the area.
#[tactic(auto, unfolding(crate::specs::Tables::table_of, tree::specs::Splits::open_splits))]
pub fn luma_table(l: Limits) -> Table
    ensures { result ≡ table_of (luma l) }
{
    [
        l.mincb,
        l.minqt,
        l.maxmtt,
        l.maxbt,
        l.maxtt,
        l.width,
        l.height,
        0,
        side_mask(l, Direction::Vertical, 4),
        side_mask(l, Direction::Vertical, 8),
        side_mask(l, Direction::Vertical, 16),
        side_mask(l, Direction::Vertical, 32),
        side_mask(l, Direction::Vertical, 64),
        side_mask(l, Direction::Vertical, 128),
        side_mask(l, Direction::Horizontal, 4),
        side_mask(l, Direction::Horizontal, 8),
        side_mask(l, Direction::Horizontal, 16),
        side_mask(l, Direction::Horizontal, 32),
        side_mask(l, Direction::Horizontal, 64),
        side_mask(l, Direction::Horizontal, 128),
        ALL,
        ALL,
        ALL,
        ALL,
        ALL,
        ALL,
        ALL,
        ALL,
        ALL,
        ALL,
        ALL,
    ]
}
