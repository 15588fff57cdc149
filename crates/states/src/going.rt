// From state to state, and to the answer. `as`: a place is at most 4,096 and a mission below 65,536, as the contracts show; `try_from` would have an
// error that never comes.
ghost use Rattle.std.specs.Prelude.{◌≡◌, false, [], suc, ◌+◌, ◌<◌, ◌≤◌, length};
ghost use Rattle.record.specs.Records.{longest};
ghost use Rattle.states.specs.States.{keeping};
ghost use Rattle.states.specs.Steps.{erased_on, mission_on, after_records, onward as onward_of, fed_by, mission_kept, fault_behind, answer_in, Standing, Possible};

use crate::State;
use crate::front::{bytes_of, front_words, joined, words_of};
use record::{LONGEST, LONGEST_RECORD, erased_bytes, erased_end, mission_in};
use refusal::{Fault, Refusal};
use sheet::{Checked, walk};

// The mission's number behind records that the bytes behind a state's records begin with: a sheet's first record is its header.
fn mission_on(state: State, bytes: &[u8]) -> usize
    requires { 6 ≤ length bytes.now }
    ensures { result ≡ mission_on state bytes.now }
{
    if state.place == 0 {
        return usize::from(mission_in(bytes));
    }
    state.mission
}

// The state behind some records that a part completes, of so many curves and bytes; `rest` is what the part has behind them. Six arguments and no
// struct of them: they go together in the one call alone.
fn after_records(
    state: State,
    count: usize,
    mission: usize,
    curves: usize,
    size: usize,
    rest: &[u8],
) -> State
    requires { (state.curves ≤ longest) × (state.place ≤ longest) × (curves ≤ longest) × (size ≤ longest) }
    ensures { result ≡ after_records state count mission curves size rest.now }
{
    let w = walk(rest, false, 0);
    let tail = &rest[w.end..];
    State {
        ended: 0,
        count,
        mission,
        curves: state.curves + curves + w.curves,
        place: state.place + size + w.end,
        erased: erased_bytes(tail),
        words: front_words(tail),
    }
}

// How many bytes FF come first, with a part more.
fn erased_on(state: State, part: &[u8]) -> usize
    requires { (state.place ≤ state.count) × (state.count + length part.now ≤ longest) }
    ensures { result ≡ erased_on state part.now }
{
    let left = state.count - state.place;
    if state.erased != left {
        return state.erased;
    }
    left + erased_bytes(part)
}

// The state with a part of at most so many bytes that the sheet is not too long.
fn onward(state: State, part: &[u8]) -> State
    requires { Standing state × (state.count + length part.now ≤ longest) }
    ensures { result ≡ onward_of state part.now }
{
    let left = state.count - state.place;
    let held = left.min(LONGEST_RECORD);
    let front = joined(&state.words, held, part);
    let count = state.count + part.len();
    let all = (held + part.len()).min(LONGEST_RECORD);
    let w = walk(&front[..all], state.place == 0, 0);
    if w.end > 0 {
        let mission = mission_on(state, &front);
        return after_records(
            state,
            count,
            mission,
            w.curves,
            w.end,
            &part[w.end - left..],
        );
    }
    State {
        ended: 0,
        count,
        erased: erased_on(state, part),
        words: words_of(&front),
        ..state
    }
}

// What is left of more bytes than a sheet has.
pub(crate) fn overfull() -> State
    ensures { result ≡ keeping false (suc longest) 0 0 0 [] }
{
    State {
        ended: 0,
        count: LONGEST + 1,
        mission: 0,
        curves: 0,
        place: 0,
        erased: 0,
        words: [0; 7],
    }
}

// The state with a part more.
pub fn go_on(state: State, part: &[u8]) -> State
    requires { Possible state }
    ensures { result ≡ fed_by state part.now }
{
    if state.count + part.len() > LONGEST {
        return overfull();
    }
    onward(state, part)
}

// A fault that stands so many bytes behind the records.
fn fault_behind(state: State, refusal: Refusal, offset: usize) -> Fault
    requires { state.place + offset ≤ longest }
    ensures { result ≡ fault_behind state refusal offset }
{
    Fault {
        refusal,
        place: (state.place + offset) as u32,
    }
}

// The mission of a state's records.
fn mission_of(state: State) -> Option<u16>
    requires { state.mission < 65536 }
    ensures { result ≡ mission_kept state }
{
    (state.place != 0).then_some(state.mission as u16)
}

// What the check of all the bytes answers.
pub fn answer(state: State) -> Result<Checked, Fault>
    requires { Possible state }
    ensures { result ≡ answer_in state }
{
    if state.count > LONGEST {
        return Err(Refusal::TooLong.into());
    }
    let left = state.count - state.place;
    let held = left.min(LONGEST_RECORD);
    let front = bytes_of(&state.words);
    if let Err(f) = walk(&front[..held], state.place == 0, 0).ending {
        return Err(fault_behind(state, f.refusal, f.place as usize));
    }
    if let Err(slip) = erased_end(state.erased, left) {
        return Err(fault_behind(state, slip.refusal, slip.offset));
    }
    Ok(Checked {
        mission: mission_of(state),
        curves: state.curves,
    })
}
