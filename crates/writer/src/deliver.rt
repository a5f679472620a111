// The delivery of a way back: 17, or its flags in the lent buffer.
ghost use Rattle.std.specs.Prelude.{◌≤◌};
ghost use Rattle.refusals.specs.Said.{said};
ghost use Rattle.unit.specs.Answers.{Meets};
ghost use Rattle.writer.specs.Delivery.{deliver_leaf, deliver_flags};

use flags::{Scratch, some_open};
use refusals::Reason;
use unit::Answer;

// The way back of a root that is a leaf, by its open splits: its split flag, if any, is 0.
#[tactic(auto, using(crate::proofs::Ends::leaf_none, crate::proofs::Ends::leaf_short, crate::proofs::Ends::leaf_done))]
pub(crate) fn leaf_flags(splits: u32, flags: &mut [u8]) -> Answer
    ensures { Meets (deliver_leaf splits flags.old) (said result) flags.new }
{
    if !some_open(splits) {
        return Ok(0);
    }
    if flags.is_empty() {
        return Err(Reason::FlagRoom.at(1));
    }
    flags[0] = 0;
    Ok(1)
}

// The first n flags of a scratch table into the lent buffer.
#[tactic(auto, using(crate::proofs::Ends::all_short, crate::proofs::Ends::all_done))]
pub(crate) fn all_flags(n: usize, scratch: &Scratch, flags: &mut [u8]) -> Answer
    requires { n ≤ 2048 }
    ensures { Meets (deliver_flags n scratch.now flags.old) (said result) flags.new }
{
    if flags.len() < n {
        return Err(Reason::FlagRoom.at(n));
    }
    blocks::copy_front(flags, scratch, n);
    Ok(n)
}
