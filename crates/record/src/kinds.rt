// The table of kinds. No other place knows a kind's name or length.
ghost use Rattle.std.specs.Prelude.{◌≡◌};
ghost use Rattle.record.specs.Kinds.{row_of, words as words_of};
ghost use Rattle.record.specs.Steps.{head_word};

use crate::numbers::half_at;

// No kind's record has more bytes than this.
pub const LONGEST_RECORD: usize = 52;

#[derive(Clone, Copy, Debug, PartialEq, Eq)]
pub enum Kind {
    Header,
    Cubic,
    Quintic,
}

// A kind's name, the length of its records, whether a sheet begins with one and has no other, whether what they hold are coordinates, and
// whether they are curves.
#[derive(Clone, Copy, Debug, PartialEq, Eq)]
pub struct Row {
    pub name: [u8; 2],
    pub size: usize,
    pub first: bool,
    pub coordinates: bool,
    pub curve: bool,
}

pub fn row_of(kind: Kind) -> Row
    ensures { result ≡ row_of kind }
{
    match kind {
        Kind::Header => Row {
            name: *b"MN",
            size: 6,
            first: true,
            coordinates: false,
            curve: false,
        },
        Kind::Cubic => Row {
            name: *b"C3",
            size: 36,
            first: false,
            coordinates: true,
            curve: true,
        },
        Kind::Quintic => Row {
            name: *b"C5",
            size: 52,
            first: false,
            coordinates: true,
            curve: true,
        },
    }
}

// The head of a kind's records as a word: their length, then its name.
pub(crate) fn head_word(kind: Kind) -> u64
    ensures { result ≡ head_word kind }
{
    let row = row_of(kind);
    // `as`: no From leads from a usize to a u64.
    row.size as u64 + 65536 * u64::from(half_at(&row.name, 0))
}

// How many coordinates a record of the kind holds.
pub(crate) fn words(kind: Kind) -> usize
    ensures { result ≡ words_of kind }
{
    let row = row_of(kind);
    if row.coordinates {
        (row.size - 4) / 4
    } else {
        0
    }
}
