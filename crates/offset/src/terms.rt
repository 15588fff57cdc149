// W, X and Y of a curve's offset, as powers of t, each coefficient times its weight.
ghost use Rattle.std.specs.Prelude.{◌≡◌, ◌-◌, pos, length};
ghost use Rattle.whole.specs.Coefficients.{at};
ghost use Rattle.pair.specs.Pairs.{pairs};
ghost use Rattle.root.specs.Promise.{quartic};
ghost use Rattle.curve.specs.Curves.{points_of};
ghost use Rattle.offset.specs.Promise.{offset_curve};
ghost use Rattle.offset.specs.Steps.{PathAsked, IsPath, RowsAsked, RowsOf};

use crate::polynomials::{extended, row, weighted, weights};
use crate::{Coordinate, Rows};
use curve::{Curve, drawn, legs_of};
use pair::Pair;
use root::Quartic;
use verdict::{imaginaries, reals};
use whole::share;

// x with x' = n d, from its start.
fn path(start: i64, d: Quartic, n: i64) -> Coordinate
    requires { PathAsked (quartic d) n }
    ensures { IsPath start (quartic d) n result }
{
    [
        start,
        d.q0 * n,
        share(d.q1 * n, 2),
        share(d.q2 * n, 3),
        share(d.q3 * n, 4),
        share(d.q4 * n, 5),
    ]
}

// The point where a curve starts.
fn start(curve: Curve) -> Pair
    ensures { result ≡ at pairs (points_of curve) 0 }
{
    match curve {
        Curve::Cubic(c) => c.p0,
        Curve::Quintic(c) => c.p0,
    }
}

// How many legs a curve has.
fn legs(curve: Curve) -> i64
    ensures { result ≡ pos (length (points_of curve) - 1) }
{
    match curve {
        Curve::Cubic(_) => 3,
        Curve::Quintic(_) => 5,
    }
}

// W, X and Y from W.
pub(crate) fn rows(curve: Curve, h: i64, w: Quartic) -> Rows
    requires { RowsAsked curve h (quartic w) }
    ensures { RowsOf curve (offset_curve (points_of curve) (quartic w) h) result }
{
    let p = start(curve);
    let n = legs(curve);
    let d = drawn(legs_of(curve));
    let re = reals(d);
    let im = imaginaries(d);
    let x = path(p.re, re, n);
    let y = path(p.im, im, n);
    let g = 0 - h;
    let a = row(w, x, h, im);
    let b = row(w, y, g, re);
    let c = extended(w);
    let s = weights(curve);
    let ws = weighted(c, s);
    let xs = weighted(a, s);
    let ys = weighted(b, s);
    Rows {
        w: ws,
        x: xs,
        y: ys,
    }
}
