// One step of reading a sheet: what stands at a record's place.
ghost use Rattle.std.specs.Prelude.{◌≡◌, true, false, ◌+◌, ◌*◌, ◌≤◌, length};
ghost use Rattle.record.specs.Numbers.{coordinates};
ghost use Rattle.record.specs.Kinds.{kinds};
ghost use Rattle.record.specs.Records.{erased_bytes, erased_end, erased_step, named, kind_in, may_stand, all_within, step_of};
ghost use Rattle.record.specs.Steps.{Headed, Headless};

use crate::kinds::{Kind, head_word, row_of, words};
use crate::numbers::{half_at, word_at};
use refusal::Refusal;

// A sheet has no more bytes than this.
pub const LONGEST: usize = 4096;

// Every byte of what is erased.
pub const ERASED: u8 = 255;

// A record's length where its place is erased: two such bytes.
const ERASED_LENGTH: u16 = 65535;

// How far apart the ends of the range are.
const SPAN: u64 = 40000;

// What is wrong where no record stands, and so many bytes further on.
#[derive(Clone, Copy, Debug, PartialEq, Eq)]
pub struct Slip {
    pub refusal: Refusal,
    pub offset: usize,
}

// Most slips are those of the record itself.
impl From<Refusal> for Slip {
    ghost from_gives = { λ r slip. slip ≡ record { refusal = r; offset = 0 } };

    fn from(refusal: Refusal) -> Slip {
        Slip { refusal, offset: 0 }
    }
}

// How many bytes FF `rest` begins with.
pub fn erased_bytes(rest: &[u8]) -> usize
    ensures { result ≡ erased_bytes rest.now }
{
    rest.iter().position(|b| *b != ERASED).unwrap_or(rest.len())
}

// What an erased length begins, by how many bytes FF come first and how many bytes are left.
pub fn erased_end(erased: usize, left: usize) -> Result<Option<Kind>, Slip>
    ensures { result ≡ erased_end erased left }
{
    if erased < left {
        return Err(Slip {
            refusal: Refusal::Leftover,
            offset: erased,
        });
    }
    Ok(None)
}

fn erased_step(rest: &[u8]) -> Result<Option<Kind>, Slip>
    ensures { result ≡ erased_step rest.now }
{
    erased_end(erased_bytes(rest), rest.len())
}

fn is_named(rest: &[u8], kind: Kind) -> bool
    requires { 4 ≤ length rest.now }
    ensures { result ≡ named kind rest.now }
{
    let row = row_of(kind);
    rest[2..4] == row.name[..]
}

// The kind that the two bytes after a record's length name, one by one in the table's order: a `match` on the two bytes would write here the
// names that the table alone knows.
pub(crate) fn kind_in(rest: &[u8]) -> Option<Kind>
    requires { 4 ≤ length rest.now }
    ensures { result ≡ kind_in kinds rest.now }
{
    [Kind::Header, Kind::Cubic, Kind::Quintic]
        .iter()
        .copied()
        .find(|kind| is_named(rest, *kind))
}

// Whether a kind's records may stand there, by whether that is the sheet's first byte.
fn may_stand(first: bool, kind: Kind) -> bool
    ensures { result ≡ may_stand first kind }
{
    row_of(kind).first == first
}

// Whether the coordinates of a record are all from -20,000 to 20,000. One comparison serves both ends of the range.
fn all_within(rest: &[u8], words: usize) -> bool
    requires { 4 + 4 * words ≤ length rest.now }
    ensures { result ≡ all_within (coordinates words rest.now 4) }
{
    let mut within = true;
    // No coordinate ends the loop, as one would end that of an iterator's `all`: so the compiler tests four at a time.
    for i in 0..words {
        if (word_at(rest, 4 + 4 * i) + 20000) % 4294967296 > SPAN {
            within = false;
        }
    }
    within
}

// A record with its kind's head. Each call names the kind, so that the compiler knows how many coordinates it has.
fn record_step(rest: &[u8], first: bool, kind: Kind) -> Result<Option<Kind>, Slip>
    requires { (may_stand first kind ≡ true) × Headed kind rest.now }
    ensures { result ≡ step_of first rest.now }
{
    if rest.len() < row_of(kind).size {
        Err(Refusal::Cut.into())
    } else if all_within(rest, words(kind)) {
        Ok(Some(kind))
    } else {
        Err(Refusal::Range.into())
    }
}

// What stands where there is no head of a kind that may.
fn headless_step(rest: &[u8], first: bool) -> Result<Option<Kind>, Slip>
    requires { Headless first rest.now }
    ensures { result ≡ step_of first rest.now }
{
    let left = rest.len();
    if left == 0 {
        return Ok(None);
    }
    if left == 1 {
        if rest[0] == ERASED {
            return Ok(None);
        }
        return Err(Refusal::Cut.into());
    }
    if half_at(rest, 0) == ERASED_LENGTH {
        return erased_step(rest);
    }
    if left < 4 {
        return Err(Refusal::Cut.into());
    }
    match kind_in(rest) {
        Some(kind) => {
            if may_stand(first, kind) {
                // With the length of its kind it would have the head.
                Err(Refusal::Length.into())
            } else {
                Err(Refusal::Kind.into())
            }
        }
        None => Err(Refusal::Kind.into()),
    }
}

// What stands at a record's place, of which `rest` is left: at the sheet's first byte, or behind it. A record of a kind, or none where the
// sheet ends. `first` is a flag and no enum of two, since it is what a kind's row says: `may_stand` compares the two.
pub fn step_of(rest: &[u8], first: bool) -> Result<Option<Kind>, Slip>
    ensures { result ≡ step_of first rest.now }
{
    // The head of a kind that may stand there passes the tests of length and kind at once.
    if rest.len() >= 4 {
        let head = word_at(rest, 0);
        if may_stand(first, Kind::Header) && head == head_word(Kind::Header) {
            return record_step(rest, first, Kind::Header);
        }
        if may_stand(first, Kind::Cubic) && head == head_word(Kind::Cubic) {
            return record_step(rest, first, Kind::Cubic);
        }
        if may_stand(first, Kind::Quintic) && head == head_word(Kind::Quintic) {
            return record_step(rest, first, Kind::Quintic);
        }
    }
    headless_step(rest, first)
}
