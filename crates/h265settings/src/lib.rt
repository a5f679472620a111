// The settings of an H.265 picture: from words, their check, and the settings of H.266 that have the same trees.
#![tactic(auto)]

mod checks;
mod units;
mod words;

// The four numbers, in the order in which they are checked. `smallest` is the smallest block side.
#[derive(Clone, Copy, Debug, PartialEq, Eq)]
pub struct Settings {
    pub ctu: u32,
    pub smallest: u32,
    pub width: u32,
    pub height: u32,
}
