// The end of a reading: refusals 13 and 14, or its rows in the lent buffer. Nothing is written before both are passed.
ghost use Rattle.std.specs.Prelude.{◌≡◌, ◌≤◌, ◌<◌, ◌⊎◌};
ghost use Rattle.refusals.specs.Numbers.{number};
ghost use Rattle.refusals.specs.Said.{said};
ghost use Rattle.unit.specs.Answers.{Meets};
ghost use Rattle.nodes.specs.State.{given_of, refusal_number, refusal_place};
ghost use Rattle.parser.specs.Walking.{leaf_next};
ghost use Rattle.reader.specs.Delivery.{leaf_count, deliver_one, deliver_all};

use parser::Scratch;
use refusals::{Reason, Refusal};
use tree::Node;
use unit::Answer;

// Whether the first flag, or the lack of an open split, makes a root a leaf.
pub(crate) fn is_leaf(out: bool, splits: u32, flags: &[u8]) -> bool
    ensures { result ≡ leaf_next out splits flags.now 0 }
{
    if out {
        return false;
    }
    splits == 0 || (0 < flags.len() && flags[0] == 0)
}

// How many flags a root has that is a leaf: its split flag, where some split is open.
pub(crate) fn leaf_count(splits: u32) -> usize
    ensures { result ≡ leaf_count splits }
{
    if splits == 0 { 0 } else { 1 }
}

// The reading of a root that is a leaf, its flags ending before a place.
pub(crate) fn one_row(root: Node, next: usize, flags: &[u8], rows: &mut [u8]) -> Answer
    ensures { Meets (deliver_one root next flags.now rows.old) (said result) rows.new }
{
    if next < flags.len() {
        return Err(Reason::FlagsLeft.at(next));
    }
    if blocks::put_row(rows, 0, blocks::row_word(root)) {
        Ok(1)
    } else {
        Err(Reason::RowRoom.at(1))
    }
}

// The refusal of a walk: it missed a flag, or met a byte that is none.
fn walk_refusal(answer: u64) -> Refusal
    requires { (refusal_number answer ≡ 11) ⊎ (refusal_number answer ≡ 12) }
    ensures { (number result.reason ≡ refusal_number answer) × (result.place ≡ refusal_place answer) }
{
    let place = nodes::refusal_place(answer);
    if nodes::refusal_number(answer) == 11 {
        Reason::FlagMissing.at(place)
    } else {
        Reason::FlagValue.at(place)
    }
}

// The reading that a walk answered, its rows in a scratch table.
pub(crate) fn all_rows(answer: u64, scratch: &Scratch, flags: &[u8], rows: &mut [u8]) -> Answer
    requires rows { answer < 9223372036854775808 → given_of answer ≤ 1024 }
    requires reason { 9223372036854775808 ≤ answer → (refusal_number answer ≡ 11) ⊎ (refusal_number answer ≡ 12) }
    ensures { Meets (deliver_all answer scratch.now flags.now rows.old) (said result) rows.new }
{
    let Ok(end) = nodes::child_answer(answer) else {
        return Err(walk_refusal(answer));
    };
    let at = nodes::place(end);
    if at < flags.len() {
        return Err(Reason::FlagsLeft.at(at));
    }
    let n = nodes::count(end);
    if rows.len() < n * 8 {
        return Err(Reason::RowRoom.at(n));
    }
    blocks::copy_words(rows, scratch, n);
    Ok(n)
}
