// What the programs read and say, as bytes.
#![tactic(auto)]

ghost use Rattle.std.specs.Prelude.{◌≡◌, ◌<◌, ◌≤◌, length, take, IfOk, OnOk};
ghost use Rattle.std.specs.Io.KnownBytes.{Consumes, IsAtEnd};
ghost use Rattle.streams.specs.Said.{Says};

use std::io;
use std::io::{Read, Write};

// Reads until the area is full or the input ends; how many bytes were read. By hand: read_exact does not tell how many came before the end,
// and read_to_end needs a heap.
pub fn read_full<R: Read>(input: &mut R, area: &mut [u8]) -> io::Result<usize>
    ensures within { IfOk result (λ n. n ≤ length area.new) }
    ensures bytes { IfOk result (λ n. Consumes (R.remaining input.old) (R.remaining input.new) (take n area.new)) }
    ensures end { IfOk result (λ n. n < length area.new → IsAtEnd (R.remaining input.new)) }
{
    let mut count = 0;
    while count < area.len() {
        let n = input.read(&mut area[count..])?;
        if n == 0 {
            return Ok(count);
        }
        count += n;
    }
    Ok(count)
}

// Where the reason of an error ends: before the system's number of it, or before the zeros behind its text.
fn reason_end(text: &[u8]) -> usize
    ensures { result ≤ length text.now }
{
    (0..text.len())
        .find(|&i| text[i] == 0 || text[i..].starts_with(b" (os error "))
        .unwrap_or(text.len())
}

// Says of a named thing why it cannot be read. The system's reasons have at most 256 bytes.
pub fn say_error<W: Write>(to: &mut W, name: &[u8], e: &io::Error) -> io::Result<()>
    ensures { OnOk result (Says (W.contents to.old) (W.contents to.new) name.now) }
{
    let mut text = [0u8; 320];
    let mut rest: &mut [u8] = &mut text;
    write!(rest, "{e}")?;
    to.write_all(name)?;
    to.write_all(b": ")?;
    to.write_all(&text[..reason_end(&text)])?;
    to.write_all(b"\n")
}
