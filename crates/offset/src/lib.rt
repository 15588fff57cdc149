// The control points of a curve's offset.
#![tactic(auto)]

mod denominators;
mod points;
mod polynomials;
mod terms;

ghost use Rattle.std.specs.Prelude.{◌≡◌, suc};
ghost use Rattle.root.specs.Promise.{quartic};
ghost use Rattle.curve.specs.Curves.{points_of};
ghost use Rattle.offset.specs.Promise.{offset_curve, offset_degree, OffsetBy};
ghost use Rattle.offset.specs.Steps.{RowsAsked, PutIn};

use area::{clear, refuse};
use curve::Curve;
use denominators::denominator_of;
use points::put_points;
use refusal::Refusal;
use root::Quartic;
use terms::rows;

// A coordinate of a curve: a polynomial of degree 5 or less, from the constant upward.
type Coordinate = [i64; 6];

// A polynomial of degree 9 or less, from the constant upward.
type Nonic = [i64; 10];

// W, X and Y, each coefficient times its weight.
#[derive(Clone, Copy, Debug, PartialEq, Eq)]
pub struct Rows {
    pub w: [i64; 10],
    pub x: [i64; 10],
    pub y: [i64; 10],
}

// How many control points an offset has.
fn points_of(curve: Curve) -> usize
    ensures { result ≡ suc (offset_degree curve) }
{
    match curve {
        Curve::Cubic(_) => 6,
        Curve::Quintic(_) => 10,
    }
}

// Writes the offset with the denominator w, if there is room, and clears what is behind it.
// Refused by `refuse`, here and below: `?` would leave the area as it was.
fn put_offset(curve: Curve, h: i64, w: Quartic, area: &mut [i64]) -> Result<u8, Refusal>
    requires { RowsAsked curve h (quartic w) }
    ensures { PutIn curve (offset_curve (points_of curve) (quartic w) h) area.old area.new result }
{
    let points = points_of(curve);
    let size = 3 * points;
    if area.len() < size {
        return refuse(area, Refusal::Room);
    }
    let r = rows(curve, h, w);
    put_points(&mut area[..size], points, r);
    clear(&mut area[size..]);
    // `as`: there are at most 30; `try_from` would have an error that never comes.
    Ok(size as u8)
}

// The control points of the offset at distance h: W, X and Y of each, from the area's start, and zeros behind them; how many numbers these are.
pub fn offset(curve: Curve, h: i64, area: &mut [i64]) -> Result<u8, Refusal>
    ensures { OffsetBy curve h area.old area.new result }
{
    match denominator_of(curve, h) {
        Ok(w) => put_offset(curve, h, w, area),
        Err(r) => refuse(area, r),
    }
}
