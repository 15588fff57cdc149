// The length of a curve whose speed is known, as a root and a fraction.
ghost use Rattle.std.specs.Prelude.{◌≡◌};
ghost use Rattle.whole.specs.Number.{wholes};
ghost use Rattle.root.specs.Search.{Each};
ghost use Rattle.root.specs.Promise.{quartic, Small};
ghost use Rattle.measure.specs.Lengths.{cubic_a, quintic_a, length_of};

use curve::Curve;
use root::Quartic;
use verdict::Square;

// sqrt(c) a / b
#[derive(Clone, Copy, Debug, PartialEq, Eq)]
pub struct Length {
    pub c: i64,
    pub a: i64,
    pub b: i64,
}

// A, where q belongs to a cubic: its upper two coefficients are zero.
// By hand: each kind has its own weights, as the definitions `cubic_a` and `quintic_a` have; one sum over a table of weights would multiply a cubic's zeros.
fn cubic_a(q: Quartic) -> i64
    requires { Each wholes Small (quartic q) }
    ensures { result ≡ cubic_a q }
{
    q.q0 * 6 + q.q1 * 3 + q.q2 * 2
}

// A, where q belongs to a quintic.
fn quintic_a(q: Quartic) -> i64
    requires { Each wholes Small (quartic q) }
    ensures { result ≡ quintic_a q }
{
    q.q0 * 60 + q.q1 * 30 + q.q2 * 20 + q.q3 * 15 + q.q4 * 12
}

// The length, where N = c q^2.
pub fn length_by(curve: Curve, s: Square) -> Length
    requires { Each wholes Small (quartic s.q) }
    ensures { result ≡ length_of curve s }
{
    match curve {
        Curve::Cubic(_) => Length {
            c: s.c,
            a: cubic_a(s.q),
            b: 2,
        },
        Curve::Quintic(_) => Length {
            c: s.c,
            a: quintic_a(s.q),
            b: 12,
        },
    }
}
