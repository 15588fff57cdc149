// Checks a sheet that arrives on the standard input, by whatever parts arrive, and writes the first line of its report to the standard output.
// An input that cannot be read is named with the reason on the error output; it is no sheet.
#![tactic(auto)]

mod lines;

ghost use Rattle.std.specs.Prelude.{◌≤◌, length, IfOk, IfSome};
ghost use Rattle.cable.specs.Cables.{Arriving, Takes, Stopped, LineIn};

use lines::line_of;
use parts::{ask, end, feed, start};
use record::LONGEST;
use states::State;
use std::io;
use std::io::{Read, Write};
use streams::say_error;

// What is left of the bytes that arrived: of the whole input, or of more bytes than a sheet has, where no end is waited for. Both have the same
// line; it is the promise `Stopped` of take_parts that tells them apart.
#[derive(Clone, Copy, Debug, PartialEq, Eq)]
enum Arrived {
    Whole(State),
    TooMany(State),
}

// Bytes that have not ended take any part.
fn take_part(state: State, part: &[u8]) -> State
    requires { Arriving state }
    ensures { Takes state part.now result }
{
    feed(state, part).unwrap()
}

// Takes each part as it arrives, up to the end of the input or the first byte too many. Says why where the input cannot be read.
fn take_parts<R: Read, W: Write>(
    input: &mut R,
    errors: &mut W,
    area: &mut [u8],
) -> io::Result<Option<Arrived>>
    ensures { IfOk result (λ arrived. IfSome arrived Stopped) }
{
    let mut state = start();
    // By hand: it reads until the input ends, and counts no index.
    while state.count <= LONGEST {
        match input.read(area) {
            Ok(0) => return Ok(Some(Arrived::Whole(state))),
            Ok(n) => state = take_part(state, &area[..n]),
            Err(e) => {
                say_error(errors, b"standard input", &e)?;
                return Ok(None);
            }
        }
    }
    Ok(Some(Arrived::TooMany(state)))
}

// The line of the bytes that were taken, which have ended.
fn line_in(state: State, text: &mut [u8]) -> usize
    requires { Arriving state × (24 ≤ length text.old) }
    ensures { LineIn state result text.new }
{
    // Once the bytes have ended, their state is not refused, and there is an answer.
    line_of(ask(end(state)).unwrap().unwrap(), text)
}

fn check_input(rt: &HostRuntime, area: &mut [u8], text: &mut [u8]) -> io::Result<()>
    requires { 24 ≤ length text.old }
{
    if let Some(Arrived::Whole(state) | Arrived::TooMany(state)) = take_parts(
        &mut rt.stdin(),
        &mut rt.stderr(),
        area,
    )? {
        let end = line_in(state, text);
        rt.stdout().write_all(&text[..end])?;
    }
    Ok(())
}

// No line is longer than 24 bytes.
fn main(rt: HostRuntime) -> io::Result<()> {
    let mut area = [0u8; 4096];
    let mut text = [0u8; 24];
    check_input(&rt, &mut area, &mut text)
}
