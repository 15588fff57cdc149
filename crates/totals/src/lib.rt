// The totals of a box of sheets: how many curves of each verdict, how many sheets refused by each number, the sum of the lengths in whole
// hundredths, and the longest curve.
//   no_sheets   the totals of an empty box
//   add_sheet   the totals with one sheet more, and what the sheet's check says
// A box is a value, and `add_sheet` takes any: who asks keeps the totals as they were.
#![tactic(auto)]

mod counting;
mod judging;

ghost use Rattle.std.specs.Prelude.{◌≡◌, [], ◌<◌};
ghost use Rattle.totals.specs.Totals.{totals_of};
ghost use Rattle.totals.specs.Promise.{with_refused, one_more, Adds};
ghost use Rattle.totals.specs.Steps.{Takes};

use counting::{count_curves, mark};
use refusal::{Fault, Refusal, number};
use sheet::Checked;

// What is counted of a curve: its verdict and, of one with a pre-image, its length in whole hundredths.
#[derive(Clone, Copy, Debug, PartialEq, Eq)]
pub enum Counted {
    Still,
    No,
    Ph,
    Pre(u64),
}

// The longest curve: its length in whole hundredths, the number of its sheet and its number there.
#[derive(Clone, Copy, Debug, PartialEq, Eq)]
pub struct Longest {
    pub hundredths: u64,
    pub sheet: u64,
    pub number: u64,
}

// `verdicts` counts still, no, ph and pre, in this order, and `refused` the sheets with the refusals 1 to 6. There is no longest curve where
// none was measured.
#[derive(Clone, Copy, Debug, PartialEq, Eq)]
pub struct Totals {
    pub sheets: u64,
    pub verdicts: [u64; 4],
    pub refused: [u64; 6],
    pub sum: u64,
    pub longest: Option<Longest>,
}

// The totals, and what was said of the sheet: its mission and how many curves it has, or its fault, or that the box is full.
#[derive(Clone, Copy, Debug, PartialEq, Eq)]
pub struct Added {
    pub totals: Totals,
    pub answer: Result<Checked, Fault>,
}

// The totals of an empty box. Written out: a derived Default is no plainer, a second public way to the same value that names no field.
pub fn no_sheets() -> Totals
    ensures { result ≡ totals_of [] }
{
    Totals {
        sheets: 0,
        verdicts: [0; 4],
        refused: [0; 6],
        sum: 0,
        longest: None,
    }
}

// The totals with a refused sheet more.
fn with_refused(mut t: Totals, f: Fault) -> Totals
    ensures { result ≡ with_refused t f }
{
    mark(&mut t.refused, usize::from(number(f.refusal)) - 1);
    t
}

// The same totals, and the number of the next sheet.
fn one_more(mut t: Totals) -> Totals
    requires { t.sheets < 1000 }
    ensures { result ≡ one_more t }
{
    t.sheets += 1;
    t
}

// The totals with a sheet more, which has its number already.
fn take(t: Totals, sheet: &[u8]) -> Added
    ensures { Takes t sheet.now result }
{
    let answer = sheet::check(sheet);
    let totals = match answer {
        Ok(told) => count_curves(t, sheet, told.curves),
        Err(f) => with_refused(t, f),
    };
    Added { totals, answer }
}

// The totals with a sheet more. The 1,001st is refused, and then the totals are as they were.
pub fn add_sheet(t: Totals, sheet: &[u8]) -> Added
    ensures { Adds t sheet.now result }
{
    if t.sheets >= 1000 {
        let full = Fault {
            refusal: Refusal::Full,
            place: 1001,
        };
        return Added {
            totals: t,
            answer: Err(full),
        };
    }
    take(one_more(t), sheet)
}
