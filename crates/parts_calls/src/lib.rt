// The calls for C on a sheet that arrives by parts, over a state in a lent area: `yard` exports them, and include/yard.h has a comment for each.
// C lends any number of words: so each call asks first for those of a state. Each turns its own answer into a code, since what it
// counts is its own. `as`, since From doesn't convert between usize and C's 64 bits.
#![tactic(auto)]

ghost use Rattle.std.specs.Prelude.{◌≡◌};
ghost use Rattle.parts_calls.specs.Numbers.{state_in, numbers_in};
ghost use Rattle.parts_calls.specs.Steps.{Countable};
ghost use Rattle.parts_calls.specs.Promise.{told_code, StartCall, FeedCall, EndCall, AskCall};

use hand::coded;
use refusal::{Fault, Refusal};
use sheet::Checked;
use states::State;

// How many numbers a state has.
const NUMBERS: usize = 13;

// Number by number, as the C interface has them.
fn state_in(numbers: &[i64; NUMBERS]) -> State
    ensures { result ≡ state_in numbers.now }
{
    State {
        ended: numbers[0].cast_unsigned() as usize,
        count: numbers[1].cast_unsigned() as usize,
        mission: numbers[2].cast_unsigned() as usize,
        curves: numbers[3].cast_unsigned() as usize,
        place: numbers[4].cast_unsigned() as usize,
        erased: numbers[5].cast_unsigned() as usize,
        words: [
            numbers[6].cast_unsigned(),
            numbers[7].cast_unsigned(),
            numbers[8].cast_unsigned(),
            numbers[9].cast_unsigned(),
            numbers[10].cast_unsigned(),
            numbers[11].cast_unsigned(),
            numbers[12].cast_unsigned(),
        ],
    }
}

fn numbers_in(state: State) -> [i64; NUMBERS]
    ensures { result ≡ numbers_in state }
{
    let [w0, w1, w2, w3, w4, w5, w6] = state.words;
    [
        (state.ended as u64).cast_signed(),
        (state.count as u64).cast_signed(),
        (state.mission as u64).cast_signed(),
        (state.curves as u64).cast_signed(),
        (state.place as u64).cast_signed(),
        (state.erased as u64).cast_signed(),
        w0.cast_signed(),
        w1.cast_signed(),
        w2.cast_signed(),
        w3.cast_signed(),
        w4.cast_signed(),
        w5.cast_signed(),
        w6.cast_signed(),
    ]
}

// What is returned for an answer of `ask`: where the sheet has not ended it is the least number.
fn told_code(told: Result<Option<Result<Checked, Fault>>, Refusal>) -> i64
    requires { Countable told }
    ensures { result ≡ told_code told }
{
    match told {
        Ok(Some(Ok(checked))) => checked.curves as i64,
        Ok(Some(Err(f))) => coded(f),
        Ok(None) => i64::MIN,
        Err(r) => coded(r.into()),
    }
}

pub fn start(state: &mut [i64]) -> i64
    ensures { StartCall state.old state.new result }
{
    let Some(numbers) = state.first_chunk_mut() else {
        return coded(Refusal::Room.into());
    };
    *numbers = numbers_in(parts::start());
    0
}

pub fn feed(state: &mut [i64], part: &[u8]) -> i64
    ensures { FeedCall state.old part.now state.new result }
{
    let Some(numbers) = state.first_chunk_mut() else {
        return coded(Refusal::Room.into());
    };
    match parts::feed(state_in(numbers), part) {
        Ok(next) => {
            *numbers = numbers_in(next);
            0
        }
        Err(f) => coded(f),
    }
}

pub fn end(state: &mut [i64]) -> i64
    ensures { EndCall state.old state.new result }
{
    let Some(numbers) = state.first_chunk_mut() else {
        return coded(Refusal::Room.into());
    };
    let ended = parts::end(state_in(numbers));
    let told = parts::ask(ended);
    // Only numbers of no state are refused here: they stay as they are.
    if told.is_ok() {
        *numbers = numbers_in(ended);
    }
    told_code(told)
}

pub fn ask(state: &[i64]) -> i64
    ensures { AskCall state.now result }
{
    let Some(numbers) = state.first_chunk() else {
        return coded(Refusal::Room.into());
    };
    told_code(parts::ask(state_in(numbers)))
}
