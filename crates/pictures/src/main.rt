// Runs a whole picture on the proved session, unit by unit, with refused calls in between. The expected output, `stdout`,
// is written from the paper.
#![tactic(auto)]

ghost use Rattle.std.specs.Prelude.{◌≡◌, ◌<◌};
ghost use Rattle.unit.specs.Cases as Cases;

use picture::{Called, Session};
use settings::Settings;
use std::io;

// Setting A of document 01 with another picture.
fn setting_a(width: u32, height: u32) -> Settings
    ensures { result ≡ Cases.settings 64 4 8 3 32 32 width height }
{
    Settings {
        ctu: 64,
        mincb: 4,
        minqt: 8,
        maxmtt: 3,
        maxbt: 32,
        maxtt: 32,
        width,
        height,
    }
}

// A call's answer: a refusal's number and place, or the number of rows. Then the session that the call yields.
fn say_called(
    rt: &impl Print,
    text: &str,
    called: Called<Settings>,
) -> io::Result<Session<Settings>> {
    match called.answer {
        Err(refusal) => print!(rt; "{text}{refusal}")?,
        Ok(count) => print!(rt; "{text}{count} rows")?,
    }
    Ok(called.session)
}

// Stays: the handle, a session and an address are arguments: each call yields the session of the next.
// A unit's line: refused for the address after it, without its flags and without room for its rows, then accepted.
// Each call is on the session that the one before it yielded.
fn say_unit(
    rt: &impl Print,
    t: Session<Settings>,
    address: usize,
    flags: &[u8],
    rows: &mut [u8; 64],
) -> io::Result<Session<Settings>>
    requires { address < 1000 }
{
    let mut few = [0u8; 7];
    print!(rt; "\n  unit {address}")?;
    let skipped = say_called(rt, ": ", t.unit(address + 1, flags, rows))?;
    let early = say_called(rt, ", ", skipped.unit(address, b"", rows))?;
    let short = say_called(rt, ", ", early.unit(address, flags, &mut few))?;
    let next = say_called(rt, ", ", short.unit(address, flags, rows))?;
    print!(rt; "; due {}", next.due)?;
    Ok(next)
}

// The bytes of so many rows, 8 at most, a row a line.
fn say_rows(rt: &impl Print, rows: &[u8; 64], count: usize) -> io::Result<()> {
    for row in rows.chunks(8).take(count) {
        rt.print("\n   ")?;
        for byte in row {
            print!(rt; " {byte}")?;
        }
    }
    Ok(())
}

// A complete picture, and sessions whose fields were forged.
fn say_end(rt: &impl Print, t: Session<Settings>, address: usize) -> io::Result<()> {
    let mut rows = [0u8; 64];
    let end = say_called(rt, "\n  complete: ", t.unit(address, b"\x00", &mut rows))?;
    let past = Session { due: 1000, ..end };
    say_called(rt, "\n  1,000 due: ", past.unit(1000, b"\x00", &mut rows))?;
    let cut = Session {
        settings: setting_a(68, 64),
        due: 0,
    };
    say_called(rt, "\n  width 68: ", cut.unit(0, b"\x00", &mut rows))?;
    Ok(())
}

// A unit of the small picture, and its rows.
fn say_small_unit(
    rt: &impl Print,
    t: Session<Settings>,
    address: usize,
    flags: &[u8],
    count: usize,
) -> io::Result<Session<Settings>>
    requires { address < 1000 }
{
    let mut rows = [0u8; 64];
    let next = say_unit(rt, t, address, flags, &mut rows)?;
    say_rows(rt, &rows, count)?;
    Ok(next)
}

// A picture of 72 by 72: three of its four units reach past an edge, by 56 samples.
fn say_small(rt: &impl Print, fresh: Session<Settings>) -> io::Result<()> {
    let first = say_small_unit(
        rt,
        fresh,
        0,
        b"\x01\x01\x00\x01\x00\x00\x00\x00\x00\x00\x00",
        6,
    )?;
    let second = say_small_unit(rt, first, 1, b"\x00\x00\x01\x00\x00\x01\x00\x00", 4)?;
    let third = say_small_unit(rt, second, 2, b"\x00\x00\x01\x00\x00\x01\x00\x00", 4)?;
    let last = say_small_unit(rt, third, 3, b"\x00", 1)?;
    say_end(rt, last, 4)?;
    Ok(())
}

// Opens a session, and goes on with a picture where it is accepted.
fn say_opened(rt: &impl Print, text: &str, settings: Settings) -> io::Result<Session<Settings>> {
    match Session::open(settings) {
        Err(reason) => {
            print!(rt; "{text}refused {}", reason.number())?;
            Ok(Session { settings, due: 0 })
        }
        Ok(t) => {
            print!(rt; "{text}opened, due {}", t.due)?;
            Ok(t)
        }
    }
}

fn main(rt: HostRuntime) -> io::Result<()> {
    say_opened(&rt, "a picture of width 68: ", setting_a(68, 64))?;
    say_small(
        &rt,
        say_opened(&rt, "\na picture of 72 by 72: ", setting_a(72, 72))?,
    )?;
    println!(&rt; "")?;
    Ok(())
}
