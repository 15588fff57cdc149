// Makes a parameter sheet from its text: reads the text from the standard input and writes the sheet to the standard output, or, where a line
// is refused or is no line of a sheet's text, one message to the error output and no sheet.
#![tactic(auto)]

mod lines;
mod making;
mod messages;

ghost use Rattle.make_sheet.specs.Making.{Makes};

use lines::Why;
use making::Making;
use reading::Lines;
use record::LONGEST;
use refusal::Refusal;
use sheet::erase;
use std::io;
use std::io::{Read, Write};
use streams::read_full;

// Why nothing was made: a line was refused, or something is wrong at a column of it. Both are counted from 1.
// No struct of a line, a column and a `Stop`: a column beside a refusal is open, and that a refused text has just one answer would not stand.
#[derive(Clone, Copy, Debug, PartialEq, Eq)]
pub enum NoSheet {
    Refused {
        line: usize,
        refusal: Refusal,
    },
    Wrong {
        line: usize,
        column: usize,
        why: Why,
    },
}

// Takes the lines one by one, up to the first that makes an end of it. The sheet is so many of the area's first bytes.
fn make(text: &[u8], area: &mut [u8; LONGEST]) -> Result<usize, NoSheet>
    ensures { Makes text.now area.new result }
{
    // An area of a sheet's full length can be erased.
    erase(area).unwrap();
    let mut sheet = Making::of(area);
    for (passed, line) in Lines::of(text).enumerate() {
        sheet.take(line, passed + 1)?;
    }
    Ok(sheet.size())
}

// Makes the sheet, and hands it over or says why there is none.
fn make_from<W: Write, E: Write>(
    output: &mut W,
    errors: &mut E,
    text: &[u8],
    area: &mut [u8; LONGEST],
) -> io::Result<()> {
    match make(text, area) {
        Ok(size) => output.write_all(&area[..size]),
        Err(none) => writeln!(errors, "{none}"),
    }
}

// A text that fills its area may go on behind it.
fn make_input<R: Read, W: Write, E: Write>(
    input: &mut R,
    output: &mut W,
    errors: &mut E,
    text: &mut [u8],
    area: &mut [u8; LONGEST],
) -> io::Result<()> {
    let read = read_full(input, text)?;
    if read == text.len() {
        writeln!(errors, "error: the text has more than 65,535 bytes")
    } else {
        make_from(output, errors, &text[..read], area)
    }
}

fn main(rt: HostRuntime) -> io::Result<()> {
    let mut text = [0u8; 65536];
    let mut area = [0u8; LONGEST];
    make_input(
        &mut rt.stdin(),
        &mut rt.stdout(),
        &mut rt.stderr(),
        &mut text,
        &mut area,
    )
}
