// The settings of a picture's coding trees: from words, their check, and the units that they cut the picture into.
#![tactic(auto)]

mod checks;
mod units;
mod words;

pub use checks::{bad_length, check};
pub use units::{count_in, locate, unit_at};

// Document 01's eight numbers, in the order in which they are checked. `maxmtt` is M, the greatest multi-type depth.
#[derive(Clone, Copy, Debug, PartialEq, Eq)]
pub struct Settings {
    pub ctu: u32,
    pub mincb: u32,
    pub minqt: u32,
    pub maxmtt: u32,
    pub maxbt: u32,
    pub maxtt: u32,
    pub width: u32,
    pub height: u32,
}

// A unit's square: its corner and its side.
#[derive(Clone, Copy, Debug, PartialEq, Eq)]
pub struct Square {
    pub x: u32,
    pub y: u32,
    pub side: u32,
}
