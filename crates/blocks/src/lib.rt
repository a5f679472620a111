// Where the parts of a split lie, and the row of a leaf: document 01, "Children and rows"; and copies
// of bytes, and of numbers as their bytes.
#![tactic(auto)]

mod copies;
mod parts;
mod rows;

pub use copies::{copy_front, copy_words};
pub use parts::{
    BINARY_H, BINARY_V, MIDDLE_H, MIDDLE_V, TERNARY_H, TERNARY_V, part_at, share_at, share_of,
};
pub use rows::{
    HEIGHT_PLACE, ROW_HEIGHT, ROW_MTT, ROW_QT, ROW_WIDTH, ROW_Y, WIDTH_PLACE, X_PLACE, Y_PLACE,
    put_row, row_word,
};
