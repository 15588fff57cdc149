// The square root of N that a pre-image gives.
ghost use Rattle.std.specs.Prelude.{◌≡◌, ◌+ℤ◌, ◌*ℤ◌};
ghost use Rattle.whole.specs.Number.{wholes};
ghost use Rattle.poly.specs.Polynomials.{Same};
ghost use Rattle.pair.specs.Pairs.{PartsWithin, AllWithin};
ghost use Rattle.root.specs.Promise.{quartic};
ghost use Rattle.verdict.specs.Verdicts.{quadratic};
ghost use Rattle.curve.specs.Curves.{norm_polynomial};

use crate::Quadratic;
use pair::{Pair, norm};
use root::Quartic;

// The first part of a conj(b).
fn dot(a: Pair, b: Pair) -> i64
    requires { PartsWithin 20000 a × PartsWithin 20000 b }
    ensures { result ≡ a.re *ℤ b.re +ℤ a.im *ℤ b.im }
{
    a.re * b.re + a.im * b.im
}

// |w|^2: where D = k w^2, it is the q of N.
pub(crate) fn speed(w: Quadratic) -> Quartic
    requires { AllWithin 20000 (quadratic w) }
    ensures { Same wholes (quartic result) (norm_polynomial (quadratic w)) }
{
    Quartic {
        q0: norm(w.b0),
        q1: 2 * dot(w.b0, w.b1),
        q2: 2 * dot(w.b0, w.b2) + norm(w.b1),
        q3: 2 * dot(w.b1, w.b2),
        q4: norm(w.b2),
    }
}
