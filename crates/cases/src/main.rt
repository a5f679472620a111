// Runs on the proved functions the cases that document 01 gives to a test program, and P4 and P5 both ways.
// The expected output, `stdout`, is written from the paper. P1 to P10 are theorems (crates/unit/specs/Cases.antt).
#![tactic(auto)]

ghost use Rattle.std.specs.Prelude.{◌≡◌, ◌≤◌};
ghost use Rattle.unit.specs.Cases as Cases;

use settings::Settings;
use std::io;

// Setting A of document 01, at a width.
fn setting_a(width: u32) -> Settings
    ensures { result ≡ Cases.setting_a width }
{
    Settings {
        ctu: 64,
        mincb: 4,
        minqt: 8,
        maxmtt: 3,
        maxbt: 32,
        maxtt: 32,
        width,
        height: 64,
    }
}

// The number of the rule that settings break first, or 0.
fn say_check(rt: &impl Print, text: &str, s: Settings) -> io::Result<()> {
    match settings::check(s) {
        Ok(()) => println!(rt; "{text}0"),
        Err(reason) => println!(rt; "{text}{}", reason.number()),
    }
}

fn say_checks(rt: &impl Print) -> io::Result<()> {
    say_check(rt, "setting A: ", setting_a(64))?;
    say_check(rt, "A with width 68: ", setting_a(68))?;
    let quads = Settings {
        minqt: 16,
        maxmtt: 0,
        ..setting_a(72)
    };
    say_check(rt, "A with MinQt 16, M 0, width 72: ", quads)?;
    let wider = Settings { width: 80, ..quads };
    say_check(rt, "A with MinQt 16, M 0, width 80: ", wider)
}

// A camera's settings.
fn camera() -> Settings
    ensures { result ≡ Cases.settings 128 4 8 3 128 64 1920 1080 }
{
    Settings {
        ctu: 128,
        mincb: 4,
        minqt: 8,
        maxmtt: 3,
        maxbt: 128,
        maxtt: 64,
        width: 1920,
        height: 1080,
    }
}

fn say_units(rt: &impl Print) -> io::Result<()> {
    match unit::unit_count(camera()) {
        Ok(n) => println!(rt; "units of a camera's picture: {n}")?,
        Err(reason) => println!(rt; "refused: {}", reason.number())?,
    }
    match settings::unit_at(setting_a(72), 1) {
        Ok(q) => println!(rt; "P5's unit starts at: {} {}", q.x, q.y)?,
        Err(reason) => println!(rt; "refused: {}", reason.number())?,
    }
    match settings::unit_at(setting_a(72), 2) {
        Ok(q) => println!(rt; "unit at: {}", q.x),
        Err(reason) => println!(rt; "the unit after it: {}", reason.number()),
    }
}

// A row in decimals: X, Y, exponents, depths.
fn say_row(rt: &impl Print, row: &[u8]) -> io::Result<()> {
    let [x, x_high, y, y_high, wide, high, quads, cuts] = row else {
        return Ok(());
    };
    let x = u16::from_le_bytes([*x, *x_high]);
    let y = u16::from_le_bytes([*y, *y_high]);
    println!(rt; "  ({x}, {y}, {wide}, {high}, {quads}, {cuts})")
}

// The rows that a reading answered: 8 at most.
fn say_rows(rt: &impl Print, rows: &[u8; 64], count: usize) -> io::Result<()> {
    for row in rows.chunks(8).take(count) {
        say_row(rt, row)?;
    }
    Ok(())
}

// Stays: the handle, a text, settings and an address are arguments of the functions that print, in the order of a line.
// Reads a unit into a buffer of so many bytes, 64 at most, and prints the answer, and the rows of an accepted unit.
fn say_reading(
    rt: &impl Print,
    text: &str,
    s: Settings,
    address: usize,
    flags: &[u8],
    room: usize,
) -> io::Result<()>
    requires { room ≤ 64 }
{
    let mut rows = [0u8; 64];
    match reader::read_unit(s, address, flags, &mut rows[..room]) {
        Ok(count) => {
            println!(rt; "{text}rows {count}")?;
            say_rows(rt, &rows, count)
        }
        Err(refusal) => println!(rt; "{text}{refusal}"),
    }
}

// Turns rows back into a buffer of 64 bytes, and prints the answer, and the flags of accepted rows.
fn say_back(
    rt: &impl Print,
    text: &str,
    s: Settings,
    address: usize,
    rows: &[u8],
) -> io::Result<()> {
    let mut flags = [0u8; 64];
    match writer::write_flags(s, address, rows, &mut flags) {
        Ok(count) => {
            print!(rt; "{text}flags {count}")?;
            say_flags(rt, &flags, count)
        }
        Err(refusal) => println!(rt; "{text}{refusal}"),
    }
}

// So many flags, 64 at most, and the end of their line.
fn say_flags(rt: &impl Print, flags: &[u8; 64], count: usize) -> io::Result<()> {
    for flag in flags.iter().take(count) {
        print!(rt; " {flag}")?;
    }
    println!(rt; "")
}

// A unit inside the picture, and one at its edge.
fn say_readings(rt: &impl Print) -> io::Result<()> {
    say_reading(
        rt,
        "P4: ",
        setting_a(64),
        0,
        b"\x01\x01\x00\x01\x00\x00\x01\x01\x00\x00\x00\x00\x00\x00\x00",
        64,
    )?;
    say_reading(
        rt,
        "P5: ",
        setting_a(72),
        1,
        b"\x00\x00\x01\x00\x00\x01\x00\x00",
        64,
    )?;
    Ok(())
}

fn say_refusals(rt: &impl Print) -> io::Result<()> {
    let a = setting_a(64);
    say_reading(rt, "a byte of 2: ", a, 0, b"\x02", 64)?;
    say_reading(rt, "flags 1 0 0 0: ", a, 0, b"\x01\x00\x00\x00", 64)?;
    say_reading(rt, "P2 into 31 bytes: ", a, 0, b"\x01\x00\x00\x00\x00", 31)?;
    say_reading(rt, "P2 into 32 bytes: ", a, 0, b"\x01\x00\x00\x00\x00", 32)?;
    Ok(())
}

// Reads flags into a buffer of 64 bytes and turns so many bytes of its rows back.
fn say_round(
    rt: &impl Print,
    text: &str,
    s: Settings,
    address: usize,
    flags: &[u8],
    bytes: usize,
) -> io::Result<()>
    requires { bytes ≤ 64 }
{
    let mut rows = [0u8; 64];
    match reader::read_unit(s, address, flags, &mut rows) {
        Ok(_) => say_back(rt, text, s, address, &rows[..bytes]),
        Err(refusal) => println!(rt; "{text}{refusal}"),
    }
}

fn say_ways_back(rt: &impl Print) -> io::Result<()> {
    say_round(
        rt,
        "P4 back: ",
        setting_a(64),
        0,
        b"\x01\x01\x00\x01\x00\x00\x01\x01\x00\x00\x00\x00\x00\x00\x00",
        64,
    )?;
    say_round(
        rt,
        "P5 back: ",
        setting_a(72),
        1,
        b"\x00\x00\x01\x00\x00\x01\x00\x00",
        32,
    )?;
    Ok(())
}

// P2's table cut short, gone on with a row of zeros, and empty.
fn say_stops(rt: &impl Print) -> io::Result<()> {
    let a = setting_a(64);
    say_round(
        rt,
        "three of P2's rows: ",
        a,
        0,
        b"\x01\x00\x00\x00\x00",
        24,
    )?;
    say_round(
        rt,
        "P2's rows and one more: ",
        a,
        0,
        b"\x01\x00\x00\x00\x00",
        40,
    )?;
    say_round(rt, "P10, no row: ", a, 0, b"\x01\x00\x00\x00\x00", 0)?;
    Ok(())
}

// P2's rows, the second and the third of them exchanged.
const EXCHANGED: [u8; 32] = [
    0, 0, 0, 0, 5, 5, 1, 0, 0, 0, 32, 0, 5, 5, 1, 0, 32, 0, 0, 0, 5, 5, 1, 0, 32, 0, 32, 0, 5, 5,
    1, 0,
];

// The same four blocks by BH with two BV: the depths tell them from a quad.
const CUTS: [u8; 32] = [
    0, 0, 0, 0, 5, 5, 0, 2, 32, 0, 0, 0, 5, 5, 0, 2, 0, 0, 32, 0, 5, 5, 0, 2, 32, 0, 32, 0, 5, 5,
    0, 2,
];

fn say_refused_back(rt: &impl Print) -> io::Result<()> {
    let a = setting_a(64);
    say_back(rt, "P2's rows, two exchanged: ", a, 0, &EXCHANGED)?;
    say_back(rt, "a quad's rows with binary depths: ", a, 0, &CUTS)?;
    Ok(())
}

fn main(rt: HostRuntime) -> io::Result<()> {
    say_checks(&rt)?;
    say_units(&rt)?;
    say_readings(&rt)?;
    say_refusals(&rt)?;
    say_ways_back(&rt)?;
    say_refused_back(&rt)?;
    say_stops(&rt)?;
    Ok(())
}
