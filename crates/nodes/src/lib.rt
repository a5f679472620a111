// A node as the walks carry it, two numbers: its row as one number, and the splits that are left to it.
// The reader and the way back share these functions; every number may have any value, but for the masks that
// `open_below` is given.
#![tactic(auto)]

mod below;
mod children;
mod edge;
mod fields;
mod masks;
mod open;
mod state;

pub use below::{bound, depth_above, depth_below, depth_beside, may_cut, middle_cuts, open_below};
pub use children::{child_row, first_half, first_third, last_third, middle_third, second_half};
pub use edge::{begins_inside, bottom_out_at, right_out_at};
pub use fields::{height, left, mtt_depth, qt_depth, top, width};
pub use masks::{Table, luma_table};
pub use open::{inner_splits, out_splits};
pub use state::{
    child_answer, count, further, moved_to, one_more, place, position, refusal, refusal_number,
    refusal_place,
};
