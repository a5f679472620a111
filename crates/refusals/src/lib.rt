// Why a call is refused, and where: the numbers and places of docs/REFUSALS.md.
#![tactic(auto)]

ghost use Rattle.std.specs.Prelude.{◌≡◌};
ghost use Rattle.refusals.specs.Numbers.{number, refusal};

use std::error::Error;
use std::fmt;

// The reason of a refusal, one for each number, in the order of the numbers.
#[derive(Clone, Copy, Debug, PartialEq, Eq)]
pub enum Reason {
    // The settings of H.266.
    CtuSide = 1,
    SmallestBlock = 2,
    SmallestQuad = 3,
    MttDepth = 4,
    GreatestBinary = 5,
    GreatestTernary = 6,
    Width = 7,
    Height = 8,
    EdgeMultiple = 9,
    // The unit.
    Address = 10,
    // Its flags, and the row buffer.
    FlagMissing = 11,
    FlagValue = 12,
    FlagsLeft = 13,
    RowRoom = 14,
    // Its rows, and the flag buffer.
    RowBytes = 15,
    NoTree = 16,
    FlagRoom = 17,
    // The session.
    Complete = 20,
    NotDue = 21,
    NoSession = 22,
    // The page.
    PageRoom = 23,
    // Rows that end too early or too late.
    RowsMissing = 27,
    RowsLeft = 28,
    // The settings of H.265.
    QuadCtuSide = 34,
    QuadSmallestBlock = 35,
    // The bank of cameras.
    Allowance = 36,
    NoAccount = 37,
    Overdrawn = 38,
}

impl Reason {
    // Its number.
    pub fn number(self) -> u32
        ensures { result ≡ number self }
    {
        self as u32
    }

    // The refusal for this reason at a place.
    pub fn at(self, place: usize) -> Refusal
        ensures { result ≡ refusal self place }
    {
        Refusal {
            reason: self,
            place,
        }
    }
}

// A refusal: its reason and its place, 0 where the reason has none.
#[derive(Clone, Copy, Debug, PartialEq, Eq)]
pub struct Refusal {
    pub reason: Reason,
    pub place: usize,
}

impl From<Reason> for Refusal {
    ghost from_gives = { λ reason made. made ≡ refusal reason 0 };

    fn from(reason: Reason) -> Refusal {
        reason.at(0)
    }
}

impl fmt::Display for Refusal {
    fn fmt<W: fmt::Write>(&self, f: &mut fmt::Formatter<W>) -> fmt::Result {
        write!(f, "{} at {}", self.reason.number(), self.place)
    }
}

impl Error for Refusal {}
