// A sheet in a script: its runs of equal bytes, each as (BYTE,HOW MANY).
ghost use Rattle.std.specs.Prelude.{◌≤◌, length, IfSome};
ghost use Rattle.io.specs.Counts.{IsPrefixLen};

use std::io;
use std::io::Write;

// One run from a place on, as far as there is room; where it ends. `as`, since From doesn't convert between u64 and usize.
fn put_run(area: &mut [u8], from: usize, byte: u8, many: u64) -> usize
    requires { from ≤ length area.old }
    ensures { result ≤ length area.old }
{
    let room = area.len() - from;
    let end = from + many.min(room as u64) as usize;
    area[from..end].fill(byte);
    end
}

// The place among the runs of the first number that is no byte.
pub(crate) fn no_byte(runs: &[i64]) -> Option<usize>
    ensures { IfSome result (λ place. place ≤ length runs.now) }
{
    let run = runs
        .chunks_exact(2)
        .position(|run| u8::try_from(run[0]).is_err())?;
    Some(2 * run)
}

// What a number has in a byte. `as`, since From converts no u64 to a u8, and `try_from` would have an error that never comes.
fn byte(x: i64) -> u8 {
    (x.unsigned_abs() % 256) as u8
}

// The runs that the numbers tell; where they end.
pub(crate) fn put_runs(area: &mut [u8], runs: &[i64]) -> usize
    ensures { IsPrefixLen result area.new }
{
    let mut end: usize = 0;
    for run in runs.chunks_exact(2) {
        end = put_run(area, end, byte(run[0]), run[1].unsigned_abs());
    }
    end
}

pub(crate) fn say_runs<W: Write>(to: &mut W, bytes: &[u8]) -> io::Result<()> {
    for run in bytes.chunk_by(|a, b| a == b) {
        write!(to, " ({},{})", run[0], run.len())?;
    }
    Ok(())
}
