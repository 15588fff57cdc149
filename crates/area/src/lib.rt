// Lent areas: what one of numbers holds after a call, the clearing of one, a refusal that leaves one cleared, and a copy into one.
#![tactic(auto)]

ghost use Rattle.std.specs.Prelude.{◌≡◌, ◌++◌, Err, length, take, drop};
ghost use Rattle.area.specs.Area.{Cleared};

use refusal::Refusal;

// Every number of the area is 0 afterwards. By an index: with `fill`, which writes the last number by itself, the calls that
// hand over a few numbers took up to half as long again.
pub fn clear(area: &mut [i64])
    ensures { Cleared area.old area.new }
{
    for i in 0..area.len() {
        area[i] = 0;
    }
}

// A refusal, and the area all zero.
pub fn refuse<T>(area: &mut [i64], r: Refusal) -> Result<T, Refusal>
    ensures { Cleared area.old area.new × (result ≡ Err r) }
{
    clear(area);
    Err(r)
}

// As much of the values as there is room for, from the area's start; what stands behind them stays.
// By an index: std's copy of a slice of any length is a call of memcpy, and a bare board has no C library.
pub fn put<T: Copy>(area: &mut [T], values: &[T])
    ensures { area.new ≡ take (length area.old) values.now ++ drop (length values.now) area.old }
{
    for i in 0..area.len().min(values.len()) {
        area[i] = values[i];
    }
}
