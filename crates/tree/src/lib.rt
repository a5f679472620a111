// The coding tree of H.266: its types. The rules are in specs/, and the functions of a node are in the crates above:
// splits, flags, blocks.
// This layer knows the limits of one tree and no unit: luma is one kind of tree.
#![tactic(auto)]

ghost use Rattle.std.specs.Prelude.{◌≡◌, cond};
ghost use Rattle.tree.specs.declared.Direction.TheVariants.{Horizontal, Vertical};
ghost use Rattle.tree.specs.Splits as Splits;

// The limits of one tree: MinCb, MinQt, M (`maxmtt`), MaxBt, MaxTt, and the picture's width and height.
#[derive(Clone, Copy)]
pub struct Limits {
    pub mincb: u32,
    pub minqt: u32,
    pub maxmtt: u32,
    pub maxbt: u32,
    pub maxtt: u32,
    pub width: u32,
    pub height: u32,
}

// The direction of a cut: a horizontal one divides the height, a vertical one the width.
#[derive(Clone, Copy, Debug, PartialEq, Eq)]
pub enum Direction {
    Horizontal,
    Vertical,
}

impl Direction {
    // The direction of a cut that is vertical or not.
    pub fn vertical_if(vertical: bool) -> Direction
        ensures { result ≡ cond vertical Vertical Horizontal }
    {
        if vertical {
            Direction::Vertical
        } else {
            Direction::Horizontal
        }
    }

    // One of two values by direction.
    pub fn pick<T: Copy>(self, horizontal: T, vertical: T) -> T
        ensures { result ≡ Splits.pick self horizontal vertical }
    {
        match self {
            Direction::Horizontal => horizontal,
            Direction::Vertical => vertical,
        }
    }
}

// "A node ends as a leaf, a quad, a binary or a ternary split with its direction."
#[derive(Clone, Copy, Debug, PartialEq, Eq)]
pub enum Decision {
    Leaf,
    Quad,
    Binary(Direction),
    Ternary(Direction),
}

// A node: corner, sides, QT depth, MTT depth (D), offset (F), part number, and its parent's split (Leaf at the root).
#[derive(Clone, Copy)]
pub struct Node {
    pub x: u32,
    pub y: u32,
    pub w: u32,
    pub h: u32,
    pub qt: u32,
    pub mtt: u32,
    pub offset: u32,
    pub part: u32,
    pub parent: Decision,
}

// A part of a split in quarters of its parent: where it starts, how long it is, and its number.
#[derive(Clone, Copy)]
pub struct Share {
    pub left: u32,
    pub top: u32,
    pub wide: u32,
    pub high: u32,
    pub part: u32,
}

// A part's place in its parent, in samples: where it starts from the parent's corner, and its sides.
#[derive(Clone, Copy)]
pub struct Part {
    pub left: u32,
    pub top: u32,
    pub wide: u32,
    pub high: u32,
}

// The masks of the five splits in the number of a node's open splits; H names a horizontal cut, V a vertical one.
// Stays: a set of splits is a number of masks, as H.266's rules are computed here and as the walks carry it in a register.
pub const QT: u32 = 1;

pub const BH: u32 = 2;

pub const BV: u32 = 4;

pub const TH: u32 = 8;

pub const TV: u32 = 16;

// All cuts.
pub const CUTS: u32 = BH + BV + TH + TV;
