// The words of a text, and its lines, one after another.
ghost use Rattle.std.specs.Prelude.{◌≡◌, ◌+◌, ◌-◌, ◌^◌, ◌<◌, ◌≤◌, length, drop};

use crate::places::{Sought, find};

// A word, and the place of its first byte. That can be counted from 1 too.
#[derive(Clone, Copy, Debug, PartialEq, Eq)]
pub struct Word<'a> {
    pub place: usize,
    pub bytes: &'a [u8],
    ghost counted: { place + 1 < 2 ^ 64 },
}

// The words of a text from a place on.
#[derive(Clone, Copy, Debug, PartialEq, Eq)]
pub struct Words<'a> {
    pub text: &'a [u8],
    pub at: usize,
    ghost within: { at ≤ length text.now },
}

impl<'a> Words<'a> {
    pub fn of(text: &'a [u8]) -> Words<'a>
        ensures text { result.text ≡ text.entry }
        ensures at { result.at ≡ 0 }
    {
        Words { text, at: 0 }
    }

    // The text that is left.
    pub fn rest(self) -> &'a [u8]
        ensures { result.now ≡ drop self.entry.at self.entry.text.now }
    {
        &self.text[self.at..]
    }
}

impl<'a> Iterator for Words<'a> {
    ghost use Rattle.std.specs.Iterator.{at_most};
    ghost use Rattle.reading.specs.Places.{NextWord};

    type Item = Word<'a>;

    ghost next_gives = { NextWord };

    ghost remaining = { λ s. at_most (length s.text.now - s.at) };

    fn next(&mut self) -> Option<Word<'a>> {
        let Words { text, at } = *self;
        let place = find(text, at, Sought::Word);
        if place == text.len() {
            return None;
        }
        let end = find(text, place, Sought::Gap);
        self.at = end;
        Some(Word {
            place,
            bytes: &text[place..end],
        })
    }
}

// The lines of a text from a place on. A line feed ends a line, and is none of its bytes.
// A type beside `Words`, with its two fields: an iterator has one kind of item, and a part that both held would be a third type, no plainer.
#[derive(Clone, Copy, Debug, PartialEq, Eq)]
pub struct Lines<'a> {
    pub text: &'a [u8],
    pub at: usize,
    ghost within: { at ≤ length text.now },
}

impl<'a> Lines<'a> {
    pub fn of(text: &'a [u8]) -> Lines<'a>
        ensures text { result.text ≡ text.entry }
        ensures at { result.at ≡ 0 }
    {
        Lines { text, at: 0 }
    }
}

impl<'a> Iterator for Lines<'a> {
    ghost use Rattle.std.specs.Iterator.{at_most};
    ghost use Rattle.reading.specs.Places.{NextLine};

    type Item = &'a [u8];

    ghost next_gives = { NextLine };

    ghost remaining = { λ s. at_most (length s.text.now - s.at) };

    fn next(&mut self) -> Option<&'a [u8]> {
        let Lines { text, at } = *self;
        if at == text.len() {
            return None;
        }
        let end = find(text, at, Sought::Byte(b'\n'));
        self.at = text.len().min(end + 1);
        Some(&text[at..end])
    }
}
