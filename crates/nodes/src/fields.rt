// The fields of a row number.
ghost use Rattle.std.specs.Prelude.{◌≡◌, ◌/◌, ◌%◌, ◌^◌, ◌<◌, ◌≤◌};

use blocks::{ROW_HEIGHT, ROW_MTT, ROW_QT, ROW_WIDTH, ROW_Y};

// A field of a row: what 1 in it is in the row's number, and how many values it has.
fn field<const ONE: u64, const VALUES: u64>(row: u64) -> u32
    requires { (0 < ONE) × (0 < VALUES) × (VALUES ≤ 65536) }
    ensures { (result ≡ row / ONE % VALUES) × (result < VALUES) }
{
    (row / ONE % VALUES) as u32
}

// The corner of a row.
pub fn left(row: u64) -> u32
    ensures { (result ≡ row % 65536) × (result < 65536) }
{
    field::<1, 65536>(row)
}

pub fn top(row: u64) -> u32
    ensures { (result ≡ row / 65536 % 65536) × (result < 65536) }
{
    field::<ROW_Y, 65536>(row)
}

// A side of at most 128, from its exponent.
pub(crate) fn side(e: u32) -> u32
    requires { e < 8 }
    ensures { (result ≡ 2 ^ e) × (result ≤ 128) }
{
    1 << e
}

// The exponents of a row's sides: those of a tree's nodes are at most 7.
pub(crate) fn width_exponent(row: u64) -> u32
    ensures { (result ≡ row / 4294967296 % 8) × (result < 8) }
{
    field::<ROW_WIDTH, 8>(row)
}

pub(crate) fn height_exponent(row: u64) -> u32
    ensures { (result ≡ row / 1099511627776 % 8) × (result < 8) }
{
    field::<ROW_HEIGHT, 8>(row)
}

// The depths of a row.
pub fn qt_depth(row: u64) -> u32
    ensures { (result ≡ row / 281474976710656 % 256) × (result < 256) }
{
    field::<ROW_QT, 256>(row)
}

pub fn mtt_depth(row: u64) -> u32
    ensures { (result ≡ row / 72057594037927936 % 256) × (result < 256) }
{
    field::<ROW_MTT, 256>(row)
}

// The sides that a row says.
pub fn width(row: u64) -> u32
    ensures { (result ≡ 2 ^ (row / 4294967296 % 8)) × (result ≤ 128) }
{
    side(width_exponent(row))
}

pub fn height(row: u64) -> u32
    ensures { (result ≡ 2 ^ (row / 1099511627776 % 8)) × (result ≤ 128) }
{
    side(height_exponent(row))
}
