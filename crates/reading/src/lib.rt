// Reading a text that a person wrote: where something stands in it, its words, and the whole numbers among them.
#![tactic(auto)]

mod numbers;
mod places;
mod words;

pub use numbers::{NoNumber, number_in, size_in};
pub use places::{Sought, find};
pub use words::{Lines, Word, Words};
