// What a comparison of two tables answers.
ghost use Rattle.std.specs.Prelude.{◌≡◌};
ghost use Rattle.compare.specs.Finer.{finer_by, finer_number};

// In the order of their numbers.
#[derive(Clone, Copy, Debug, PartialEq, Eq)]
pub enum Finer {
    Equal,
    First,
    Second,
    Neither,
}

impl Finer {
    // Its number, 0 to 3.
    pub fn number(self) -> usize
        ensures { result ≡ finer_number self }
    {
        self as usize
    }
}

// The answer, from whether the first table is finer or equal, and whether the second is.
pub(crate) fn compared(first: bool, second: bool) -> Finer
    ensures { result ≡ finer_by first second }
{
    match (first, second) {
        (true, true) => Finer::Equal,
        (true, false) => Finer::First,
        (false, true) => Finer::Second,
        (false, false) => Finer::Neither,
    }
}
