// The units of a picture: their number and their squares. A unit's side is a power of two, so nothing is divided by it.
ghost use Rattle.std.specs.Prelude.{◌≡◌, ◌≤◌, ◌<◌, ◌^◌};
ghost use Rattle.sides.specs.Side.{exponent};
ghost use Rattle.refusals.specs.Said.{numbered};
ghost use Rattle.settings.specs.Units.{units_over, count_in, square_in, Gridded, refusal_at, located_by, located};

use crate::{Settings, Square, check};
use refusals::Reason;

// The units side by side that reach over n samples: those that end before the last sample, and the one that holds it.
// So the compiler sees that they are never 0, and tests no divisor where an address is divided by them.
fn units_over(side: u32, n: u32) -> u32
    requires { (side ≡ 2 ^ exponent side) × (side ≤ 128) × (0 < n) × (n ≤ 16384) }
    ensures { result ≡ units_over side n }
{
    ((n - 1) >> sides::exponent(side)) + 1
}

// How many units of a side there are in a picture of a width and a height.
pub fn count_in(side: u32, width: u32, height: u32) -> usize
    requires { Gridded side width height }
    ensures { result ≡ count_in side width height }
{
    (units_over(side, width) * units_over(side, height)) as usize
}

// The square of the unit at an address, or refusal 10.
pub fn locate(side: u32, width: u32, height: u32, address: usize) -> Result<Square, Reason>
    requires { Gridded side width height }
    ensures { numbered result ≡ located_by (refusal_at 0 (count_in side width height) address) (square_in side width address) }
{
    let across = units_over(side, width);
    let count = across * units_over(side, height);
    if address >= count as usize {
        return Err(Reason::Address);
    }
    let a = address as u32;
    // The one division of the library, in 32 bits: the units across are no power of two.
    Ok(Square {
        x: a % across * side,
        y: a / across * side,
        side,
    })
}

// The square of the unit at an address, or the refusal of the settings or of the address.
pub fn unit_at(s: Settings, address: usize) -> Result<Square, Reason>
    ensures { numbered result ≡ located s address }
{
    check(s)?;
    locate(s.ctu, s.width, s.height, address)
}
