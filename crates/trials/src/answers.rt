// What a call returned, and what a lent number area holds.
use std::io;
use std::io::Write;

// The refusal's number.
pub(crate) fn say_refused<W: Write>(to: &mut W, returned: i64) -> io::Result<()> {
    write!(to, "refused {}", returned.unsigned_abs() % 32)
}

// The refusal's number, and the byte of the sheet.
pub(crate) fn say_fault<W: Write>(to: &mut W, returned: i64) -> io::Result<()> {
    let code = returned.unsigned_abs();
    write!(to, "refused {} at {}", code % 32, code / 32)
}

// The answer's numbers, and how many zeros there are behind them.
pub(crate) fn say_area<W: Write>(to: &mut W, area: &[i64], count: usize) -> io::Result<()> {
    let (numbers, rest) = area.split_at(count.min(area.len()));
    for x in numbers {
        write!(to, " {x}")?;
    }
    let zeros = rest.iter().take_while(|x| **x == 0).count();
    write!(to, " and {zeros} zeros")
}

// Points, each as (x,y).
pub(crate) fn say_points<W: Write>(to: &mut W, points: &[i64]) -> io::Result<()> {
    for (passed, point) in points.chunks_exact(2).enumerate() {
        if passed > 0 {
            write!(to, " ")?;
        }
        write!(to, "({},{})", point[0], point[1])?;
    }
    Ok(())
}
