// Whether a state is that of some bytes.
ghost use Rattle.std.specs.Prelude.{◌≤◌};
ghost use Rattle.whole.specs.Number.{Tells};
ghost use Rattle.states.specs.States.{Reached};
ghost use Rattle.states.specs.Steps.{CurvesEnd, RecordsEnd, MissionFits, Fronted, Standing, Overfull};

use crate::State;
use crate::front::{bytes_of, front_words};
use crate::going::overfull;
use record::{Kind, LONGEST, LONGEST_RECORD, erased_bytes, row_of};
use sheet::walk;

// Whether the records of so many curves may have so many bytes: some of them are longer than cubics, by the same number of bytes each.
fn curves_end(curves: usize, long: usize) -> bool
    ensures { Tells (CurvesEnd curves long) result }
{
    let cubic = row_of(Kind::Cubic).size;
    let more = row_of(Kind::Quintic).size - cubic;
    // Before the difference, which is none where there are more.
    if curves > long / cubic {
        return false;
    }
    let left = long - curves * cubic;
    left % more == 0 && left / more <= curves
}

// Whether records of so many curves may end at a place: they stand behind a header.
fn records_end(curves: usize, place: usize) -> bool
    ensures { Tells (RecordsEnd curves place) result }
{
    if place == 0 {
        return curves == 0;
    }
    let header = row_of(Kind::Header).size;
    place >= header && curves_end(curves, place - header)
}

// Whether the mission of records that end at a place may have that number.
fn mission_fits(mission: usize, place: usize) -> bool
    ensures { Tells (MissionFits mission place) result }
{
    if place == 0 {
        mission == 0
    } else {
        mission <= 65535
    }
}

// Whether the words of a state and how many bytes FF come first belong together, and no whole record stands there.
fn is_fronted(state: State) -> bool
    requires { state.place ≤ state.count }
    ensures { Tells (Fronted state) result }
{
    let left = state.count - state.place;
    let held = left.min(LONGEST_RECORD);
    let bytes = bytes_of(&state.words);
    let front = &bytes[..held];
    // The words last, since bytes that have just been written are slow to copy.
    state.erased <= left
        && LONGEST_RECORD.min(state.erased) == erased_bytes(front)
        && walk(front, state.place == 0, 0).end == 0
        && state.words == front_words(front)
}

// Whether the numbers of a state are those of a sheet that is not too long.
fn is_standing(state: State) -> bool
    ensures { Tells (Standing state) result }
{
    state.count <= LONGEST
        && state.place <= state.count
        && mission_fits(state.mission, state.place)
        && records_end(state.curves, state.place)
        && is_fronted(state)
}

fn is_overfull(state: State) -> bool
    ensures { Tells (Overfull state) result }
{
    state
        == State {
            ended: state.ended,
            ..overfull()
        }
}

pub fn is_reached(state: State) -> bool
    ensures { Tells (Reached (state)) result }
{
    // Standing states first: most are, and an overfull one fails their first test, that of the count.
    state.ended <= 1 && (is_standing(state) || is_overfull(state))
}
