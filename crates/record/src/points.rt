// A curve's kind, its points as numbers, and as the bytes of a record hold them.
ghost use Rattle.std.specs.Prelude.{◌≡◌, ◌+◌, ◌≤◌, length};
ghost use Rattle.pair.specs.Pairs.{pair};
ghost use Rattle.curve.specs.declared.Curve.TheVariants as curves;
ghost use Rattle.curve.specs.Curves.{points_of};
ghost use Rattle.record.specs.declared.kinds.Kind.TheVariants as kinds;
ghost use Rattle.record.specs.Numbers.{word_at, signed_of};
ghost use Rattle.record.specs.Kinds.{row_of, kind_of, numbers_of, points_in};
ghost use Rattle.record.specs.Promise.{IsHeld};
ghost use Rattle.record.specs.Steps.{HeldAs};

use crate::kinds::{Kind, row_of};
use crate::numbers::{signed, word_at};
use crate::steps::kind_in;
use curve::{Cubic, Curve, Quintic};
use pair::Pair;

// A curve and how many bytes its record has.
#[derive(Clone, Copy, Debug, PartialEq, Eq)]
pub struct Held {
    pub curve: Curve,
    pub size: usize,
}

pub fn kind_of(curve: Curve) -> Kind
    ensures { result ≡ kind_of curve }
{
    match curve {
        Curve::Cubic(_) => Kind::Cubic,
        Curve::Quintic(_) => Kind::Quintic,
    }
}

// A cubic's coordinates, x then y of each point. Its own function and not one for both kinds: twice a const parameter can't be computed.
pub fn cubic_numbers(c: Cubic) -> [i64; 8]
    ensures { result ≡ numbers_of (points_of (curves.Cubic c)) }
{
    let Cubic { p0, p1, p2, p3 } = c;
    [p0.re, p0.im, p1.re, p1.im, p2.re, p2.im, p3.re, p3.im]
}

// The same for a quintic.
pub fn quintic_numbers(c: Quintic) -> [i64; 12]
    ensures { result ≡ numbers_of (points_of (curves.Quintic c)) }
{
    let Quintic {
        p0,
        p1,
        p2,
        p3,
        p4,
        p5,
    } = c;
    [
        p0.re, p0.im, p1.re, p1.im, p2.re, p2.im, p3.re, p3.im, p4.re, p4.im, p5.re, p5.im,
    ]
}

// The point whose coordinates stand at `at`.
fn point_at(bytes: &[u8], at: usize) -> Pair
    requires { at + 8 ≤ length bytes.now }
    ensures { result ≡ pair (signed_of (word_at bytes.now at)) (signed_of (word_at bytes.now (at + 4))) }
{
    Pair {
        re: signed(word_at(bytes, at)),
        im: signed(word_at(bytes, at + 4)),
    }
}

// Its own function and not one for both kinds: the points are fields by name, so each kind lists its own. And a clause and not an array of 36
// bytes: the table alone knows a kind's length.
fn cubic_in(bytes: &[u8]) -> Cubic
    requires { length bytes.now ≡ (row_of kinds.Cubic).size }
    ensures { points_of (curves.Cubic result) ≡ points_in bytes.now }
{
    Cubic {
        p0: point_at(bytes, 4),
        p1: point_at(bytes, 12),
        p2: point_at(bytes, 20),
        p3: point_at(bytes, 28),
    }
}

fn quintic_in(bytes: &[u8]) -> Quintic
    requires { length bytes.now ≡ (row_of kinds.Quintic).size }
    ensures { points_of (curves.Quintic result) ≡ points_in bytes.now }
{
    Quintic {
        p0: point_at(bytes, 4),
        p1: point_at(bytes, 12),
        p2: point_at(bytes, 20),
        p3: point_at(bytes, 28),
        p4: point_at(bytes, 36),
        p5: point_at(bytes, 44),
    }
}

// The curve that a record's bytes hold, unless it is a header's.
fn held_in(bytes: &[u8], kind: Kind) -> Option<Held>
    requires { length bytes.now ≡ (row_of kind).size }
    ensures { HeldAs kind bytes.now result }
{
    let size = bytes.len();
    match kind {
        Kind::Header => None,
        Kind::Cubic => Some(Held {
            curve: Curve::Cubic(cubic_in(bytes)),
            size,
        }),
        Kind::Quintic => Some(Held {
            curve: Curve::Quintic(quintic_in(bytes)),
            size,
        }),
    }
}

// The curve whose record the bytes begin with, as its kind's name says. That the record is sound is what `step_of` tells.
pub fn held_curve(rest: &[u8]) -> Option<Held>
    ensures { IsHeld rest.now result }
{
    if rest.len() < 4 {
        return None;
    }
    let kind = kind_in(rest)?;
    held_in(rest.get(..row_of(kind).size)?, kind)
}
