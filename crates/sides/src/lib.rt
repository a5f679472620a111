// Sides of blocks: powers of two, and the exponents that rows store.
#![tactic(auto)]

ghost use Rattle.std.specs.Prelude.{◌≡◌};
ghost use Rattle.sides.specs.Side.{exponent as Side·exponent, side_from};

// The exponent of a side: its trailing zeros; 32 of 0.
pub fn exponent(x: u32) -> u32
    ensures { result ≡ Side·exponent x }
{
    u32::trailing_zeros(x)
}

// Whether x is a power of two from low to high: a ones count of 1, in the range.
pub fn side_from(low: u32, high: u32, x: u32) -> bool
    ensures { result ≡ side_from low high x }
{
    (u32::count_ones(x) == 1) & (low <= x) & (x <= high)
}
