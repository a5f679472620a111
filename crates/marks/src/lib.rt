// The rows of a table as the way back looks at them: the next row as one number, the marks that one pass over the rows
// makes, and the decision at a node that they show, without a scan.
#![tactic(auto)]

mod ahead;
mod compare;
mod pass;

pub use ahead::{decision_inside, decision_out};
pub use compare::{same_row, word_at};
pub use pass::{Marks, mark_tree};
