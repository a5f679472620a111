// A number's characters in one number, the first in the lowest byte: they are made by a few quotients, without a loop.
// Stays: numbers of packed characters; as arrays, a quotient for each digit, printing 1,024 rows took 50 % longer, 29 rows 36 %.
ghost use Rattle.std.specs.Prelude.{◌≡◌, ◌^◌, ◌≤◌, ◌<◌};
ghost use Rattle.page.specs.Lines.{column};
ghost use Rattle.page.specs.Text.{first_two, last_four, four_digits, four_marks, two_bytes, four_bytes, six_bytes};

// The last four digits.
// Stays: a remainder by the next quotient; as in its definition, `n / 1000 % 10` and so on, printing took 11 to 15 % longer.
fn four_digits(n: u32) -> u32
    ensures { (result ≡ four_digits n) × (result ≤ 0x09090909) }
{
    let tens = n / 10;
    let hundreds = n / 100;
    let thousands = n / 1000;
    (thousands - n / 10000 * 10)
        + (hundreds - thousands * 10) * 256
        + (tens - hundreds * 10) * 65536
        + (n - tens * 10) * 16777216
}

// What makes characters of them: 48 for a digit, or a space for a zero in front of the first one.
fn four_marks(n: u32) -> u32
    ensures { (result ≡ four_marks n) × (result ≤ 0x30303030) }
{
    match n {
        0..=9 => 0x30202020,
        10..=99 => 0x30302020,
        100..=999 => 0x30303020,
        _ => 0x30303030,
    }
}

// The last four characters.
pub(crate) fn last_four(n: u32) -> u32
    ensures { four_bytes result ≡ last_four n }
{
    four_digits(n) + four_marks(n)
}

// The first two of six.
fn first_two(n: u32) -> u32
    requires { n < 1000000 }
    ensures { (two_bytes result ≡ first_two n) × (result < 65536) }
{
    match n {
        0..=9999 => 0x2020,
        10000..=99999 => 0x3020 + n / 10000 * 256,
        _ => 0x3030 + n / 100000 + n / 10000 % 10 * 256,
    }
}

// A number in 6 columns.
#[tactic(auto, using(crate::proofs::Places::six_columns))]
pub(crate) fn six(n: u32) -> u64
    requires { n < 1000000 }
    ensures { six_bytes result ≡ column 6 n }
{
    first_two(n) as u64 + last_four(n) as u64 * 65536
}

// A side of a row, 4 to 128, in 4 columns, from its exponent.
#[tactic(auto, unfolding(crate::specs::Lines::digits_in, crate::specs::Lines::digits, crate::specs::Lines::column))]
pub(crate) fn side(exponent: u8) -> [u8; 4]
    requires { (2 ≤ exponent) × (exponent < 8) }
    ensures { result ≡ column 4 (2 ^ exponent) }
{
    match exponent {
        2 => *b"   4",
        3 => *b"   8",
        4 => *b"  16",
        5 => *b"  32",
        6 => *b"  64",
        _ => *b" 128",
    }
}
