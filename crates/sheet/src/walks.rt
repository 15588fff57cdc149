// The walk over a sheet's records.
ghost use Rattle.std.specs.Prelude.{◌≡◌};
ghost use Rattle.sheet.specs.Walks.{Walks};

use crate::Location;
use record::{LONGEST, row_of, step_of};
use refusal::{Fault, Refusal};

// What a walk finds: how many curves there are, where the records end, where the curve that was asked for stands, if there is one, and how
// the records end: at the sheet's end or an erased tail, or at a fault.
#[derive(Clone, Copy, Debug, PartialEq, Eq)]
pub struct Walked {
    pub curves: usize,
    pub end: usize,
    pub asked: Option<Location>,
    pub ending: Result<(), Fault>,
}

// The one walk over a sheet's records, from its first byte or from a later record on. It remembers where curve `number`, from 1, stands: 0 asks
// for none, as it is no curve's number. No option, since who calls `locate` may name 0 too: None and Some(0) would both ask for none.
pub fn walk(sheet: &[u8], first: bool, number: usize) -> Walked
    ensures { Walks sheet.now first number result }
{
    let mut w = Walked {
        curves: 0,
        end: 0,
        asked: None,
        ending: Ok(()),
    };
    if sheet.len() > LONGEST {
        w.ending = Err(Refusal::TooLong.into());
        return w;
    }
    let mut first = first;
    loop {
        match step_of(&sheet[w.end..], first) {
            Ok(None) => return w,
            Ok(Some(kind)) => {
                let row = row_of(kind);
                if row.curve {
                    w.curves += 1;
                    if w.curves == number {
                        w.asked = Some(Location {
                            place: w.end,
                            length: row.size,
                        });
                    }
                }
                w.end += row.size;
                first = false;
            }
            Err(slip) => {
                // `as`: a place is at most 4,096; `try_from` would have an error that never comes.
                let place = (w.end + slip.offset) as u32;
                w.ending = Err(Fault {
                    refusal: slip.refusal,
                    place,
                });
                return w;
            }
        }
    }
}
