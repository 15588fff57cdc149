// Writing a record.
ghost use Rattle.std.specs.Prelude.{◌≡◌, true, [], ◌++◌, ◌+◌, ◌-◌, ◌*◌, length, take};
ghost use Rattle.record.specs.Numbers.{encoded, written};
ghost use Rattle.curve.specs.Curves.{points_of};
ghost use Rattle.record.specs.declared.kinds.Kind.TheVariants as kinds;
ghost use Rattle.record.specs.Kinds.{row_of, kind_of, numbers_of, formed, header_of};
ghost use Rattle.record.specs.Records.{all_within};
ghost use Rattle.record.specs.Promise.{PutsAt};

use crate::kinds::{Kind, head_word, row_of};
use crate::numbers::{bits, put_word};
use crate::points::{cubic_numbers, quintic_numbers};
use curve::{COORDINATE_REACH, Curve};
use refusal::Refusal;
use whole::within;

// Whether all numbers are in range. By hand: no proof that `all` answers this closed, as its closure is told nothing of an item's range.
fn numbers_within(xs: &[i64]) -> bool
    ensures { result ≡ all_within xs.now }
{
    for x in xs {
        if !within(*x, COORDINATE_REACH) {
            return false;
        }
    }
    true
}

// Writes the numbers behind the four bytes of a record's head.
fn put_numbers(bytes: &mut [u8], xs: &[i64])
    requires { (length bytes.old ≡ 4 + 4 * length xs.now) × (all_within xs.now ≡ true) }
    ensures { bytes.new ≡ take 4 bytes.old ++ encoded xs.now }
{
    for (i, x) in xs.iter().enumerate() {
        put_word(bytes, 4 + 4 * i, bits(*x));
    }
}

// Writes a record's length and its kind's name. How long the part is stands in a clause, here and below, and in no array type: the table alone
// knows a kind's length.
fn put_head(bytes: &mut [u8], kind: Kind)
    requires { length bytes.old ≡ (row_of kind).size }
    ensures { bytes.new ≡ written bytes.old 0 (formed kind []) }
{
    put_word(bytes, 0, head_word(kind));
}

// Writes a header over a part of its own length.
pub fn put_header(bytes: &mut [u8], mission: u16)
    requires { length bytes.old ≡ (row_of kinds.Header).size }
    ensures { bytes.new ≡ header_of mission }
{
    put_head(bytes, Kind::Header);
    bytes[4..].copy_from_slice(&mission.to_le_bytes());
}

// Writes a record of numbers over a part of its own length.
fn put_record(bytes: &mut [u8], kind: Kind, xs: &[i64])
    requires { (length bytes.old ≡ (row_of kind).size) × ((row_of kind).size ≡ 4 + 4 * length xs.now) × (all_within xs.now ≡ true) }
    ensures { bytes.new ≡ formed kind (encoded xs.now) }
{
    put_head(bytes, kind);
    put_numbers(bytes, xs);
}

// Writes a record of numbers at a place. All tests come before the first byte is written.
fn put_at(bytes: &mut [u8], at: usize, kind: Kind, xs: &[i64]) -> Result<(), Refusal>
    requires { (row_of kind).size ≡ 4 + 4 * length xs.now }
    ensures { PutsAt bytes.old at kind xs.now bytes.new result }
{
    let within = numbers_within(xs);
    let size = row_of(kind).size;
    let left = bytes.len().saturating_sub(at);
    if !within {
        return Err(Refusal::Range);
    }
    if left < size {
        return Err(Refusal::Room);
    }
    put_record(&mut bytes[at..at + size], kind, xs);
    Ok(())
}

// Writes a curve's record at a place. Where it is refused no byte is changed. An arm for each kind, since their arrays differ in length: one for
// both would need its length beside it.
pub fn put_curve(bytes: &mut [u8], at: usize, curve: Curve) -> Result<(), Refusal>
    ensures { PutsAt bytes.old at (kind_of curve) (numbers_of (points_of curve)) bytes.new result }
{
    match curve {
        Curve::Cubic(c) => put_at(bytes, at, Kind::Cubic, &cubic_numbers(c)),
        Curve::Quintic(c) => put_at(bytes, at, Kind::Quintic, &quintic_numbers(c)),
    }
}
