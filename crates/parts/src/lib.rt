// The check of a sheet that arrives by parts: what is left of the bytes that were fed is a small state.
//   start   the state of no bytes
//   feed    takes a part more, which may be empty
//   end     there are no more parts
//   ask     what the check of all the bytes answers, once they have ended
// No call asks anything of its arguments. A state that no bytes leave is refused with RANGE, a part behind the end with ENDED.
#![tactic(auto)]

ghost use Rattle.std.specs.Prelude.{◌≡◌};
ghost use Rattle.parts.specs.Promise.{Starts, Feeds, EndsSheet, Asks};

use refusal::{Fault, Refusal};
use sheet::Checked;
use states::{State, answer, go_on, is_reached};

// The state of no bytes, number by number: that it is these zeros is promised here.
pub fn start() -> State
    ensures { Starts result }
{
    State {
        ended: 0,
        count: 0,
        mission: 0,
        curves: 0,
        place: 0,
        erased: 0,
        words: [0; 7],
    }
}

// Takes a part more. Where that is refused, the caller keeps the state as it was. `ended` is a number, here and below: see `State`.
pub fn feed(state: State, part: &[u8]) -> Result<State, Fault>
    ensures { Feeds state part.now result }
{
    if !is_reached(state) {
        return Err(Refusal::Range.into());
    }
    if state.ended == 1 {
        return Err(Refusal::Ended.into());
    }
    Ok(go_on(state, part))
}

// There are no more parts.
pub fn end(state: State) -> State
    ensures { EndsSheet state result }
{
    if !is_reached(state) {
        return state;
    }
    State { ended: 1, ..state }
}

// Three layers: an `Err` where no bytes leave the state, `None` where they have not ended, and else what `check` answers for all of them.
pub fn ask(state: State) -> Result<Option<Result<Checked, Fault>>, Refusal>
    ensures { Asks state result }
{
    if !is_reached(state) {
        return Err(Refusal::Range);
    }
    if state.ended == 0 {
        return Ok(None);
    }
    Ok(Some(answer(state)))
}
