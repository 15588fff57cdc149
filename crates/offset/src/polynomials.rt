// Polynomials by their coefficients: W x + h d, and each coefficient times its weight.
// The loops write by an index: of what `iter_mut().zip(..)` lends a proof knows nothing afterwards.
ghost use Rattle.std.specs.Prelude.{◌≡◌};
ghost use Rattle.whole.specs.Number.{wholes, Within};
ghost use Rattle.poly.specs.Polynomials.{Same};
ghost use Rattle.root.specs.Promise.{quartic, Small, root_size};
ghost use Rattle.root.specs.Search.{Each};
ghost use Rattle.offset.specs.Steps.{IsJoined, RowAsked, IsRow, Weights, IsWeighted};

use crate::{Coordinate, Nonic};
use curve::Curve;
use root::Quartic;

// f x + g, and p moved up by one power.
fn joined(p: Nonic, f: i64, x: Coordinate, g: i64) -> Nonic
    requires { Each wholes (Within 130000000000000) p × Within root_size f × Each wholes (Within 1600000) x × Within 25600000000 g }
    ensures { IsJoined p f x g result }
{
    let mut r = [g, p[0], p[1], p[2], p[3], p[4], p[5], p[6], p[7], p[8]];
    for (k, x) in x.iter().enumerate() {
        r[k] += f * *x;
    }
    r
}

// W x + h d: by powers of W, from the highest down.
pub(crate) fn row(w: Quartic, x: Coordinate, h: i64, d: Quartic) -> Nonic
    requires { RowAsked (quartic w) x h (quartic d) }
    ensures { IsRow (quartic w) x h (quartic d) result }
{
    let r4 = joined([0; 10], w.q4, x, h * d.q4);
    let r3 = joined(r4, w.q3, x, h * d.q3);
    let r2 = joined(r3, w.q2, x, h * d.q2);
    let r1 = joined(r2, w.q1, x, h * d.q1);
    joined(r1, w.q0, x, h * d.q0)
}

// A polynomial of a lower degree among those of ten coefficients.
pub(crate) fn extended(w: Quartic) -> Nonic
    requires { Each wholes Small (quartic w) }
    ensures { Same wholes result (quartic w) }
{
    [w.q0, w.q1, w.q2, w.q3, w.q4, 0, 0, 0, 0, 0]
}

// 252 / C(9, k) for a quintic, 10 / C(5, k) for a cubic.
pub(crate) fn weights(curve: Curve) -> Nonic
    ensures { Weights curve result }
{
    match curve {
        Curve::Cubic(_) => [10, 2, 1, 1, 2, 10, 0, 0, 0, 0],
        Curve::Quintic(_) => [252, 28, 7, 3, 2, 2, 3, 7, 28, 252],
    }
}

// Each coefficient times its weight.
pub(crate) fn weighted(mut a: Nonic, s: Nonic) -> Nonic
    requires { Each wholes (Within 170000000000000) a × Each wholes (Within 252) s }
    ensures { IsWeighted a s result }
{
    for (k, s) in s.iter().enumerate() {
        a[k] *= *s;
    }
    a
}
