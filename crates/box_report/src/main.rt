// Reports a box of sheets: each argument is a file that holds one. Writes a line for each sheet as it is read, and then the totals.
// A file that cannot be read is named with the reason on the error output; it is no sheet.
#![tactic(auto)]

mod files;
mod lines;

ghost use Rattle.std.specs.Prelude.{◌≤◌, ◌<◌, length};
ghost use Rattle.record.specs.Records.{longest};
ghost use Rattle.box_report.specs.Boxes.{Boxed};

use files::read_file;
use lines::{line_of, lines_of};
use record::LONGEST;
use std::env::{Env, FillError};
use std::io;
use std::io::{ErrorKind, Write};
use streams::say_error;
use totals::{Totals, add_sheet, no_sheets};

// The longest name, a sheet with one byte too many, which shows by that byte, and a line with the longest name.
const NAME: usize = 4096;

const SHEET: usize = LONGEST + 1;

const LINE: usize = 4128;

// The areas for them.
#[derive(Drop)]
struct Areas {
    name: [u8; NAME],
    sheet: [u8; SHEET],
    text: [u8; LINE],
    ghost sheet_long: { longest < length sheet },
}

// Adds a sheet and writes its line; tells whether it was refused because the box is full, which shows by the number of sheets: the answer is no
// plainer a test, since then it has to be proved that no check of a sheet answers FULL. A bool, here and below: an enum of two such names says
// no more. `Boxed` stands in three contracts: a type with it as an invariant would be opened and made anew around this one call of add_sheet.
fn take_sheet(
    rt: &HostRuntime,
    t: &mut Totals,
    name: &[u8],
    sheet: &[u8],
    text: &mut [u8; LINE],
) -> io::Result<bool>
    requires { Boxed t.old × (length name.now ≤ NAME) }
    ensures { Boxed t.new }
{
    let r = add_sheet(*t, sheet);
    if r.totals.sheets == t.sheets {
        return Ok(true);
    }
    *t = r.totals;
    let end = line_of(t.sheets, name, r.answer, text);
    rt.stdout().write_all(&text[..end])?;
    Ok(false)
}

// Takes the sheet of a file, which an argument names; tells whether it was refused because the box is full.
fn take_file(rt: &HostRuntime, t: &mut Totals, i: usize, areas: &mut Areas) -> io::Result<bool>
    requires { Boxed t.old }
    ensures { Boxed t.new }
{
    let Ok(length) = rt.arg(i, &mut areas.name) else {
        let e = io::Error::new(ErrorKind::InvalidFilename, "File name too long");
        say_error(&mut rt.stderr(), &areas.name, &e)?;
        return Ok(false);
    };
    let name = &areas.name[..length];
    match read_file(rt, name, &mut areas.sheet)? {
        Some(n) => take_sheet(rt, t, name, &areas.sheet[..n], &mut areas.text),
        None => Ok(false),
    }
}

// How many arguments there are, the program's name among them.
fn arg_count(rt: &HostRuntime, name: &mut [u8]) -> usize {
    (0..usize::MAX)
        .find(|i| matches!(rt.arg(*i, name), Err(FillError::NotPresent)))
        .unwrap_or(usize::MAX)
}

// Takes the files one by one, up to the first sheet too many; tells whether there is one.
fn take_files(rt: &HostRuntime, t: &mut Totals, areas: &mut Areas) -> io::Result<bool>
    requires { Boxed t.old }
    ensures { Boxed t.new }
{
    for i in 1..arg_count(rt, &mut areas.name) {
        if take_file(rt, t, i, areas)? {
            return Ok(true);
        }
    }
    Ok(false)
}

fn report_box(rt: &HostRuntime, areas: &mut Areas) -> io::Result<()> {
    let mut t = no_sheets();
    let full = take_files(rt, &mut t, areas)?;
    let end = lines_of(t, &mut areas.text);
    rt.stdout().write_all(&areas.text[..end])?;
    if full {
        rt.stdout().write_all(b"refused 20 at 1001\n")?;
    }
    Ok(())
}

fn main(rt: HostRuntime) -> io::Result<()> {
    let mut areas = Areas {
        name: [0; NAME],
        sheet: [0; SHEET],
        text: [0; LINE],
    };
    report_box(&rt, &mut areas)
}
