// The columns of a line, written at a place of a page.
ghost use Rattle.std.specs.Prelude.{◌≡◌, ◌+◌, ◌^◌, ◌≤◌, ◌<◌, length};
ghost use Rattle.std.proofs.lemmas.List.Edits.{sets};
ghost use Rattle.page.specs.Lines.{column};
ghost use Rattle.page.specs.Text.{six_bytes};

use crate::text;

// The characters of a text in 6 columns.
#[tactic(auto, using(crate::proofs::Stores::stored))]
pub(crate) fn put_six(page: &mut [u8], at: usize, text: u64)
    requires { at + 6 ≤ length page.old }
    ensures { page.new ≡ sets page.old at (six_bytes text) }
{
    page[at..at + 6].copy_from_slice(&text.to_le_bytes()[..6]);
}

// A side in 4 columns, from its exponent.
#[tactic(auto, using(crate::proofs::Stores::stored))]
pub(crate) fn put_side(page: &mut [u8], at: usize, exponent: u8)
    requires { (at + 4 ≤ length page.old) × (2 ≤ exponent) × (exponent < 8) }
    ensures { page.new ≡ sets page.old at (column 4 (2 ^ exponent)) }
{
    page[at..at + 4].copy_from_slice(&text::side(exponent));
}

// A depth in 3 columns. Most have one digit, and are written at once.
#[tactic(auto, using(crate::proofs::Stores::stored, crate::proofs::Places::one_column, crate::proofs::Places::three_columns))]
pub(crate) fn put_depth(page: &mut [u8], at: usize, depth: u8)
    requires { at + 3 ≤ length page.old }
    ensures { page.new ≡ sets page.old at (column 3 depth) }
{
    if depth < 10 {
        page[at..at + 3].copy_from_slice(&[32, 32, 48 + depth]);
    } else {
        let text = text::last_four(depth as u32).to_le_bytes();
        page[at..at + 3].copy_from_slice(&text[1..]);
    }
}
