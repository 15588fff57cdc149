// The calls on sheets for C, over numbers: `yard` exports them, and include/yard.h has a comment for each. Each call turns its own answer into a
// code, since what it counts is its own: curves, numbers, bytes, or nothing. `as`, since From doesn't convert between usize and C's 64 bits.
#![tactic(auto)]

ghost use Rattle.std.specs.Prelude.{◌≡◌};
ghost use Rattle.hand.specs.Promise.{coded as code_of};
ghost use Rattle.sheet_calls.specs.Promise.{count_of_change, CheckCall, ReadCall, FindCall, StartForCall, EraseCall, AppendCall, ReportCall};

use hand::{coded, curve_in, faulted, hand, hand_curve};
use refusal::{Fault, Refusal};
use report_text::write_report;
use sheet::locate;

pub fn check(s: &[u8]) -> i64
    ensures { CheckCall s.now result }
{
    match sheet::check(s) {
        Ok(checked) => checked.curves as i64,
        Err(f) => coded(f),
    }
}

pub fn read(s: &[u8], mission: u16, number: u64, out: &mut [i64]) -> i64
    ensures { ReadCall s.now mission number out.old out.new result }
{
    match sheet::read(s, mission, number as usize) {
        Ok(curve) => hand_curve(out, curve),
        Err(f) => faulted(out, f),
    }
}

pub fn find(s: &[u8], mission: u16, number: u64, out: &mut [i64]) -> i64
    ensures { FindCall s.now mission number out.old out.new result }
{
    match locate(s, mission, number as usize) {
        Ok(at) => hand(out, &[at.place as i64, at.length as i64]),
        Err(f) => faulted(out, f),
    }
}

// What a call that writes a sheet returns: there is nothing to count.
fn changed(change: Result<(), Fault>) -> i64
    ensures { result ≡ code_of (count_of_change change) }
{
    match change {
        Ok(()) => 0,
        Err(f) => coded(f),
    }
}

pub fn start(s: &mut [u8], mission: u16) -> i64
    ensures { StartForCall s.old mission s.new result }
{
    changed(sheet::start(s, mission))
}

pub fn erase(s: &mut [u8]) -> i64
    ensures { EraseCall s.old s.new result }
{
    changed(sheet::erase(s))
}

// The count of numbers is tested by hand, as in `offset` of curve_calls: the library changes the sheet itself, and has no answer to hand over.
pub fn append(s: &mut [u8], p: &[i64]) -> i64
    ensures { AppendCall s.old p.now s.new result }
{
    let Some(curve) = curve_in(p) else {
        return coded(Refusal::Length.into());
    };
    changed(sheet::append(s, curve))
}

pub fn report(s: &[u8], text: &mut [u8]) -> i64
    ensures { ReportCall s.now text.old text.new result }
{
    match write_report(s, text) {
        Ok(n) => n as i64,
        Err(r) => coded(r.into()),
    }
}
