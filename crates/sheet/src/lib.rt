// The parameter sheet, at most 4,096 bytes of records.
//   check    a sheet's mission and how many curves it has, or its first fault
//   read     a curve by its number, as points, of a sheet of the expected mission
//   locate   where a curve's record stands
//   find     the part of the sheet that holds a curve
//   start    writes a mission's header and erases the rest
//   erase    makes every byte FF
//   append   writes one more curve
//   walk     what the others share, for the crates above: how the records end and where
// No call asks anything of its arguments. A call that refuses leaves the sheet as it was.
#![tactic(auto)]

mod walks;

ghost use Rattle.std.specs.Prelude.{◌≡◌, length, replicate};
ghost use Rattle.record.specs.Records.{erased};
ghost use Rattle.sheet.specs.Survey.{survey, mission_of, is_other};
ghost use Rattle.sheet.specs.Promise.{Checks, Reads, Locates, FindsIn, StartsFor, Erases, Appends};

use curve::Curve;
use record::{ERASED, Kind, LONGEST, held_curve, mission_in, put_curve, put_header, row_of};
use refusal::{Fault, Refusal};
pub use walks::{Walked, walk};

// What `check` answers: the mission that a sheet is for, which one that is all FF has not, and how many curves it has.
#[derive(Clone, Copy, Debug, PartialEq, Eq)]
pub struct Checked {
    pub mission: Option<u16>,
    pub curves: usize,
}

// What `locate` answers: the place of a record's first byte and how many bytes it has.
#[derive(Clone, Copy, Debug, PartialEq, Eq)]
pub struct Location {
    pub place: usize,
    pub length: usize,
}

// The mission of a sheet whose records end there: the first of them is the header.
fn mission_of(sheet: &[u8], end: usize) -> Option<u16>
    requires { end ≡ (survey sheet.now).end }
    ensures { result ≡ mission_of (survey sheet.now).records }
{
    (end != 0).then(|| mission_in(sheet))
}

fn is_other(own: Option<u16>, expected: u16) -> bool
    ensures { result ≡ is_other expected own }
{
    own.is_some_and(|number| number != expected)
}

// The mission of a sheet, and how many curves it has.
pub fn check(sheet: &[u8]) -> Result<Checked, Fault>
    ensures { Checks sheet.now result }
{
    let w = walk(sheet, true, 0);
    w.ending?;
    Ok(Checked {
        mission: mission_of(sheet, w.end),
        curves: w.curves,
    })
}

// Where the record of curve `number`, from 1, stands, on a sheet of the expected mission.
pub fn locate(sheet: &[u8], mission: u16, number: usize) -> Result<Location, Fault>
    ensures { Locates sheet.now mission number result }
{
    let w = walk(sheet, true, number);
    w.ending?;
    if is_other(mission_of(sheet, w.end), mission) {
        return Err(Refusal::OtherMission.into());
    }
    w.asked.ok_or(Refusal::Number.into())
}

// The points of curve `number`, from 1.
pub fn read(sheet: &[u8], mission: u16, number: usize) -> Result<Curve, Fault>
    ensures { Reads sheet.now mission number result }
{
    let at = locate(sheet, mission, number)?;
    // A curve's record stands there.
    let held = held_curve(&sheet[at.place..]).unwrap();
    Ok(held.curve)
}

// The part of the sheet that holds curve `number`, from 1; an empty part where reading it is refused.
pub fn find<'a>(sheet: &'a [u8], mission: u16, number: usize) -> &'a [u8]
    ensures { FindsIn sheet.entry mission number result }
{
    match locate(sheet, mission, number) {
        Ok(at) => &sheet[at.place..at.place + at.length],
        Err(_) => &sheet[..0],
    }
}

fn erase_all(sheet: &mut [u8])
    ensures { sheet.new ≡ replicate (length sheet.old) erased }
{
    sheet.fill(ERASED);
}

// Erases the whole sheet and writes a mission's header over its first bytes: to fill from the seventh byte on was slower.
pub fn start(sheet: &mut [u8], mission: u16) -> Result<(), Fault>
    ensures { StartsFor sheet.old mission sheet.new result }
{
    if sheet.len() > LONGEST {
        return Err(Refusal::TooLong.into());
    }
    let size = row_of(Kind::Header).size;
    if sheet.len() < size {
        return Err(Refusal::Room.into());
    }
    erase_all(sheet);
    put_header(&mut sheet[..size], mission);
    Ok(())
}

// Makes every byte FF.
pub fn erase(sheet: &mut [u8]) -> Result<(), Fault>
    ensures { Erases sheet.old sheet.new result }
{
    if sheet.len() > LONGEST {
        return Err(Refusal::TooLong.into());
    }
    erase_all(sheet);
    Ok(())
}

// Writes a curve at the first erased place.
pub fn append(sheet: &mut [u8], curve: Curve) -> Result<(), Fault>
    ensures { Appends sheet.old curve sheet.new result }
{
    let w = walk(sheet, true, 0);
    w.ending?;
    if w.end == 0 {
        return Err(Refusal::NoMission.into());
    }
    put_curve(sheet, w.end, curve)?;
    Ok(())
}
