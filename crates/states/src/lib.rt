// What is left of the bytes of a sheet that arrives by parts: a small state.
//   is_reached   whether a state is that of some bytes
//   go_on        the state with a part more
//   answer       what the check of all the bytes answers
#![tactic(auto)]

mod front;
mod going;
mod reached;

pub use going::{answer, go_on};
pub use reached::is_reached;

// 1 once the bytes have ended, else 0; how many they are, and 4,097 for more than a sheet has; the mission's number, and 0 as long as there
// is no header; how many curves there are, and where the records end; how many bytes FF stand there; and the first 52 bytes from there on,
// eight to a word, with zeros behind them. Numbers and no flag or option, since C hands over any thirteen numbers of 64 bits: `is_reached` tells
// whether they are a state's, and those that no bytes leave are refused. No Default either: that zeros are the state of no bytes is the promise
// of `parts::start`.
#[derive(Clone, Copy, Debug, PartialEq, Eq)]
pub struct State {
    pub ended: usize,
    pub count: usize,
    pub mission: usize,
    pub curves: usize,
    pub place: usize,
    pub erased: usize,
    pub words: [u64; 7],
}
