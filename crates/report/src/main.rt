// Reads a parameter sheet from the standard input and writes its report to the standard output.
#![tactic(auto)]

ghost use Rattle.std.specs.Prelude.{◌≤◌, ◌<◌, length, take};
ghost use Rattle.record.specs.Records.{longest};
ghost use Rattle.report_text.specs.Promise.{Report};

use record::LONGEST;
use report_text::write_report;
use std::io;
use std::io::{Read, Write};
use streams::read_full;

// The report of a sheet. No report is longer than 5,335 bytes.
fn report_of(sheet: &[u8], text: &mut [u8]) -> usize
    requires { 5335 ≤ length text.old }
    ensures { (result ≤ length text.new) × Report sheet.now (take result text.new) }
{
    write_report(sheet, text).unwrap()
}

// A sheet that is too long shows by its first byte too many, so there is room for that byte.
fn report_input<R: Read, W: Write>(
    input: &mut R,
    output: &mut W,
    sheet: &mut [u8],
    text: &mut [u8],
) -> io::Result<()>
    requires { (longest < length sheet.old) × (5335 ≤ length text.old) }
{
    let read = read_full(input, sheet)?;
    let end = report_of(&sheet[..read], text);
    output.write_all(&text[..end])
}

fn main(rt: HostRuntime) -> io::Result<()> {
    let mut sheet = [0u8; LONGEST + 1];
    let mut text = [0u8; 5335];
    report_input(&mut rt.stdin(), &mut rt.stdout(), &mut sheet, &mut text)
}
