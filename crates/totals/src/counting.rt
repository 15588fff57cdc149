// Counting on: a number, a curve, the curves of a sheet. A usize becomes a u64 by `as`: there is no From between the two.
ghost use Rattle.std.specs.Prelude.{◌≡◌};
ghost use Rattle.refusal.specs.Answers.{given, with_given};
ghost use Rattle.sheet.specs.Survey.{outcome};
ghost use Rattle.sheet.specs.Promise.{count_of};
ghost use Rattle.totals.specs.Totals.{verdict_of, hundredths_of, placed, own, longer as longer_of};
ghost use Rattle.totals.specs.Promise.{marked, with_curve};
ghost use Rattle.totals.specs.Steps.{CountsCurves};

use crate::judging::judge;
use crate::{Counted, Longest, Totals};
use record::{Kind, held_curve, row_of};

// Counts one more at a place; beyond the last there is nothing to count. By index: once a borrow from get_mut is over, a proof knows how many counts
// there are, but not what they are.
pub(crate) fn mark(counts: &mut [u64], i: usize)
    ensures { counts.new ≡ marked counts.old i }
{
    if i < counts.len() {
        counts[i] = counts[i].saturating_add(1);
    }
}

// Where a verdict stands in the public table `verdicts`. By number, as what may not change has it: the definitions IsTotals and totals_text and the
// theorem curves_complete read that table by place.
fn verdict_of(x: Counted) -> usize
    ensures { result ≡ verdict_of x }
{
    match x {
        Counted::Still => 0,
        Counted::No => 1,
        Counted::Ph => 2,
        Counted::Pre(_) => 3,
    }
}

fn hundredths_of(x: Counted) -> u64
    ensures { result ≡ hundredths_of x }
{
    match x {
        Counted::Still | Counted::No | Counted::Ph => 0,
        Counted::Pre(m) => m,
    }
}

// The longer of two, the first of equals.
fn longer(first: Option<Longest>, second: Option<Longest>) -> Option<Longest>
    ensures { result ≡ longer_of first second }
{
    match (first, second) {
        (Some(a), Some(b)) => if a.hundredths < b.hundredths {
            second
        } else {
            first
        },
        (Some(_), None) => first,
        (None, _) => second,
    }
}

// A curve by itself, as the longest.
fn alone(sheet: u64, number: u64, x: Counted) -> Option<Longest>
    ensures { result ≡ own (placed sheet number x) }
{
    match x {
        Counted::Still | Counted::No | Counted::Ph => None,
        Counted::Pre(hundredths) => Some(Longest {
            hundredths,
            sheet,
            number,
        }),
    }
}

// The totals with one curve more, of the last sheet.
fn with_curve(mut t: Totals, number: u64, x: Counted) -> Totals
    ensures { result ≡ with_curve t (placed t.sheets number x) }
{
    mark(&mut t.verdicts, verdict_of(x));
    t.sum = t.sum.saturating_add(hundredths_of(x));
    t.longest = longer(t.longest, alone(t.sheets, number, x));
    t
}

// The totals with the curves of a sound sheet more, of which there are `count`, in one pass from record to record behind the header. The places
// are counted by hand: an iterator over the records is no plainer, since with its ghost members and the law that it ends it is longer than this
// loop and the one of report_text together; and of what a closure changes, here the totals, a proof knows nothing once it was called.
pub(crate) fn count_curves(start: Totals, sheet: &[u8], count: usize) -> Totals
    requires { with_given count_of (outcome sheet.now) ≡ given count }
    ensures { CountsCurves start sheet.now count result }
{
    let mut t = start;
    let mut next = row_of(Kind::Header).size;
    for k in 0..count {
        // So many records follow one another.
        let held = held_curve(&sheet[next..]).unwrap();
        next += held.size;
        t = with_curve(t, k as u64 + 1, judge(held.curve));
    }
    t
}
