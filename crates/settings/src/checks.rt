// Refusals 1 to 9: which settings are taken.
ghost use Rattle.std.specs.Prelude.{◌≡◌, ◌%◌, ◌^◌, max, eqb};
ghost use Rattle.sides.specs.Side.{exponent};
ghost use Rattle.refusals.specs.Said.{number_or_0};
ghost use Rattle.settings.specs.Checks.{settings_refusal, first_hit};
ghost use Rattle.settings.specs.Checks.{side_rules, limit_rules, picture_rules, bad_length};

use crate::Settings;
use refusals::Reason;

// 1 to 3.
fn check_sides(s: Settings) -> Result<(), Reason>
    ensures { number_or_0 result ≡ first_hit 1 (side_rules s) }
{
    if !((s.ctu == 32) | (s.ctu == 64) | (s.ctu == 128)) {
        return Err(Reason::CtuSide);
    }
    let small = u32::min(64, s.ctu);
    if !sides::side_from(4, small, s.mincb) {
        return Err(Reason::SmallestBlock);
    }
    if !sides::side_from(s.mincb, small, s.minqt) {
        return Err(Reason::SmallestQuad);
    }
    Ok(())
}

// 4 to 6, where 1 to 3 have passed.
fn check_limits(s: Settings) -> Result<(), Reason>
    requires { first_hit 1 (side_rules s) ≡ 0 }
    ensures { number_or_0 result ≡ first_hit 4 (limit_rules s) }
{
    if 2 * (sides::exponent(s.ctu) - sides::exponent(s.mincb)) < s.maxmtt {
        return Err(Reason::MttDepth);
    }
    if !sides::side_from(s.minqt, s.ctu, s.maxbt) {
        return Err(Reason::GreatestBinary);
    }
    if !sides::side_from(s.minqt, u32::min(64, s.ctu), s.maxtt) {
        return Err(Reason::GreatestTernary);
    }
    Ok(())
}

// Whether n is a multiple of m, a power of two: n's bits below m's are 0.
fn multiple(n: u32, m: u32) -> bool
    requires { m ≡ 2 ^ exponent m }
    ensures { result ≡ eqb (n % m) 0 }
{
    n & (m - 1) == 0
}

// Whether a width or a height is refused; H.265's settings ask it too.
pub fn bad_length(mincb: u32, n: u32) -> bool
    requires { mincb ≡ 2 ^ exponent mincb }
    ensures { result ≡ bad_length mincb n }
{
    (n == 0) | (16384 < n) | !multiple(n, u32::max(8, mincb))
}

// 7 to 9, where 1 to 3 have passed.
fn check_picture(s: Settings) -> Result<(), Reason>
    requires { first_hit 1 (side_rules s) ≡ 0 }
    ensures { number_or_0 result ≡ first_hit 7 (picture_rules s) }
{
    if bad_length(s.mincb, s.width) {
        return Err(Reason::Width);
    }
    if bad_length(s.mincb, s.height) {
        return Err(Reason::Height);
    }
    if (s.maxmtt == 0) & !(multiple(s.width, s.minqt) & multiple(s.height, s.minqt)) {
        return Err(Reason::EdgeMultiple);
    }
    Ok(())
}

// Checks the settings: the first of 1 to 9 that they break.
pub fn check(s: Settings) -> Result<(), Reason>
    ensures { number_or_0 result ≡ settings_refusal s }
{
    check_sides(s)?;
    check_limits(s)?;
    check_picture(s)
}
