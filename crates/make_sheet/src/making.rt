// The sheet, line by line.
ghost use Rattle.std.specs.Prelude.{◌≡◌};
ghost use Rattle.make_sheet.specs.declared.making.Stop.TheVariants as stop;
ghost use Rattle.sheet.specs.Survey.{survey};
ghost use Rattle.make_sheet.specs.Making.{ending_at, line_of, stop_of, size_in};

use crate::NoSheet;
use crate::lines::{Line, Why, read_line};
use record::LONGEST;
use refusal::{Fault, Refusal};
use sheet::{append, start, walk};

// How far the sheet is: nothing was said, it is started, or it is known how many bytes it has.
#[derive(Clone, Copy, Debug, PartialEq, Eq)]
pub enum Stage {
    Blank,
    Started,
    Ended(usize),
}

// Why a line makes an end of it: the library refused, or something is wrong with the line, which may be no more than that it may not stand here.
#[derive(Clone, Copy, Debug, PartialEq, Eq)]
pub enum Stop {
    Refused(Refusal),
    Wrong(Why),
}

impl From<Fault> for Stop {
    ghost from_gives = { λ f s. s ≡ stop.Refused f.refusal };

    fn from(fault: Fault) -> Stop {
        Stop::Refused(fault.refusal)
    }
}

impl Stop {
    // What is told of it: the line, and where something is wrong the column too.
    fn at(self, line: usize, column: usize) -> NoSheet
        ensures line { line_of result ≡ line }
        ensures stop { stop_of result ≡ self }
    {
        match self {
            Stop::Refused(refusal) => NoSheet::Refused { line, refusal },
            Stop::Wrong(why) => NoSheet::Wrong { line, column, why },
        }
    }
}

// So many erased bytes stay behind the records.
fn end(area: &[u8; LONGEST], count: usize) -> Result<Stage, Stop>
    ensures { result ≡ ending_at (survey area.now).end count }
{
    let records = walk(area, true, 0).end;
    if count > area.len() - records {
        return Err(Stop::Refused(Refusal::TooLong));
    }
    Ok(Stage::Ended(records + count))
}

// The sheet that is made: its area, and how far it is.
#[derive(Drop)]
pub(crate) struct Making<'a> {
    area: &'a mut [u8; LONGEST],
    stage: Stage,
}

impl<'a> Making<'a> {
    ghost use Rattle.make_sheet.specs.Steps.{Blank, Next, TakesIn};

    // Nothing was said.
    pub(crate) fn of(area: &'a mut [u8; LONGEST]) -> Making<'a>
        ensures { Blank area.entry result }
    {
        Making {
            area,
            stage: Stage::Blank,
        }
    }

    // What a line does. The mission is said once, before any curve, and behind `erased` nothing is said.
    fn next(&mut self, line: Line) -> Result<Stage, Stop>
        ensures { Next self.old line self.new result }
    {
        match (self.stage, line) {
            (stage, Line::Nothing) => Ok(stage),
            (Stage::Ended(_), _) => Err(Stop::Wrong(Why::BehindErased)),
            (Stage::Started, Line::Mission(_)) => Err(Stop::Wrong(Why::MissionAgain)),
            (Stage::Blank, Line::Mission(number)) => {
                start(self.area, number)?;
                Ok(Stage::Started)
            }
            (_, Line::Curve(curve)) => {
                append(self.area, curve)?;
                Ok(Stage::Started)
            }
            (_, Line::Erased(count)) => end(self.area, count),
        }
    }

    // Takes the line of this number: what it says, and what that does.
    pub(crate) fn take(&mut self, text: &[u8], line: usize) -> Result<(), NoSheet>
        ensures { TakesIn self.old text.now line self.new result }
    {
        let said = read_line(text).map_err(|wrong| Stop::Wrong(wrong.why).at(
            line,
            wrong.place + 1,
        ))?;
        self.stage = self
            .next(said.line)
            .map_err(|stop| stop.at(line, said.place + 1))?;
        Ok(())
    }

    // How many bytes of the area the sheet has. Where nothing is said of it, no byte stays erased.
    pub(crate) fn size(&self) -> usize
        ensures { result ≡ size_in self.now.stage self.now.area.now }
    {
        if let Stage::Ended(size) = self.stage {
            return size;
        }
        walk(self.area, true, 0).end
    }
}
