// The calls on sheets, and what each answers. What a call returned is looked at as C code does (curves.rt says why): each says something else of it.
// `as`, since From doesn't convert a u64 to a usize.
use crate::answers::say_fault;
use crate::curves::say_curve;
use crate::runs::say_runs;
use std::io;
use std::io::Write;

// What the check of a sheet returned.
pub(crate) fn say_checked<W: Write>(to: &mut W, returned: i64) -> io::Result<()> {
    if returned < 0 {
        say_fault(to, returned)
    } else {
        write!(to, "curves {returned}")
    }
}

pub(crate) fn check<W: Write>(to: &mut W, sheet: &[u8]) -> io::Result<()> {
    say_checked(to, sheet_calls::check(sheet))
}

pub(crate) fn read<W: Write>(
    to: &mut W,
    sheet: &[u8],
    mission: u16,
    number: u64,
) -> io::Result<()> {
    let mut out = [0i64; 12];
    let returned = sheet_calls::read(sheet, mission, number, &mut out);
    if returned < 0 {
        say_fault(to, returned)
    } else {
        say_curve(to, &out, returned)
    }
}

pub(crate) fn find<W: Write>(
    to: &mut W,
    sheet: &[u8],
    mission: u16,
    number: u64,
) -> io::Result<()> {
    let part = sheet::find(sheet, mission, number as usize);
    write!(to, "{} bytes", part.len())?;
    say_runs(to, part)
}

// What was done, and the sheet as it is left.
fn say_change<W: Write>(to: &mut W, returned: i64, sheet: &[u8]) -> io::Result<()> {
    if returned < 0 {
        say_fault(to, returned)?;
    } else {
        write!(to, "done")?;
    }
    write!(to, ", left")?;
    say_runs(to, sheet)
}

pub(crate) fn start<W: Write>(to: &mut W, sheet: &mut [u8], mission: u16) -> io::Result<()> {
    let returned = sheet_calls::start(sheet, mission);
    say_change(to, returned, sheet)
}

pub(crate) fn erase<W: Write>(to: &mut W, sheet: &mut [u8]) -> io::Result<()> {
    let returned = sheet_calls::erase(sheet);
    say_change(to, returned, sheet)
}

pub(crate) fn append<W: Write>(to: &mut W, sheet: &mut [u8], points: &[i64]) -> io::Result<()> {
    let returned = sheet_calls::append(sheet, points);
    say_change(to, returned, sheet)
}
