// Asks the calls of the library: reads a line for each from the standard input and writes what it answers.
// The file `stdin` has calls, and `stdout` the answers of the second program.
#![tactic(auto)]

mod answers;
mod calls;
mod curves;
mod lines;
mod numbers;
mod questions;
mod roots;
mod runs;
mod sheets;

ghost use Rattle.std.specs.Prelude.{◌<◌, length};
ghost use Rattle.record.specs.Records.{longest};

use record::LONGEST;
use std::io;
use std::io::{Read, Write};
use streams::read_full;

// A text that fills its area may go on behind it. The other area is what sheets are made in: one byte too many is told from a sheet.
fn answer_input<R: Read, W: Write>(
    input: &mut R,
    output: &mut W,
    text: &mut [u8],
    area: &mut [u8],
) -> io::Result<()>
    requires { longest < length area.old }
{
    let read = read_full(input, text)?;
    if read == text.len() {
        writeln!(output, "error: the text has more than 65,535 bytes")
    } else {
        lines::all(output, &text[..read], area)
    }
}

fn main(rt: HostRuntime) -> io::Result<()> {
    let mut text = [0u8; 65536];
    let mut area = [0u8; LONGEST + 1];
    answer_input(&mut rt.stdin(), &mut rt.stdout(), &mut text, &mut area)
}
