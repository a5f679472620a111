// What the reading of a tree is lent beside the table of its rows.
use nodes::Table;

// The scratch table: room for the 1,024 rows that a unit has at most, each as one number.
// Stays: an array of fixed size, since the library allocates nothing.
pub type Scratch = [u64; 1024];

// The table of the tree's kind, and its flags.
#[derive(Clone, Copy)]
pub(crate) struct Reading<'a> {
    pub(crate) u: &'a Table,
    pub(crate) flags: &'a [u8],
}
