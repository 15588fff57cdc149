// The turning polynomial of a pre-image, and how often it changes its sign between 0 and 1.
ghost use Rattle.std.specs.Prelude.{◌≡◌};
ghost use Rattle.whole.specs.Number.{Tells};
ghost use Rattle.pair.specs.Pairs.{AllWithin};
ghost use Rattle.verdict.specs.Verdicts.{quadratic};
ghost use Rattle.measure.specs.Turns.{turning_of, Straight, CountIs, Inflects};
ghost use Rattle.measure.specs.Steps.{Moderate};

use crate::Turning;
use pair::cross;
use verdict::Quadratic;

// How often the turning polynomial changes its sign, and whether it is zero throughout.
// Both, and no Option: C is handed both numbers, and the promise gives a straight curve a count of its own, 0.
#[derive(Clone, Copy, Debug, PartialEq, Eq)]
pub struct Inflections {
    pub turning: Turning,
    pub count: u8,
    pub straight: bool,
}

fn turning(w: Quadratic) -> Turning
    requires { AllWithin 2000 (quadratic w) }
    ensures { result ≡ turning_of w }
{
    Turning {
        t0: cross(w.b0, w.b1),
        t1: cross(w.b0, w.b2) * 2,
        t2: cross(w.b1, w.b2),
    }
}

// The signs of a and c, the values at the ends, and of b, twice the Bernstein coefficient between them, decide; the discriminant is b^2 - 4 a c.
fn count(x: Turning) -> u8
    requires { Moderate x }
    ensures { CountIs x result }
{
    let Turning { t0: a, t1, t2 } = x;
    let b = a * 2 + t1;
    let c = a + t1 + t2;
    let ac = a * c;
    let level = b * (a + c) >= 0;
    if ac < 0 {
        1
    } else if level {
        0
    } else if ac == 0 {
        1
    } else if ac * 4 < b * b {
        2
    } else {
        0
    }
}

fn is_straight(x: Turning) -> bool
    ensures { Tells (Straight x) result }
{
    x.t0 == 0 && x.t1 == 0 && x.t2 == 0
}

// The inflections, where D = k w^2.
pub(crate) fn inflections_by(w: Quadratic) -> Inflections
    requires { AllWithin 2000 (quadratic w) }
    ensures { Inflects w result }
{
    let turning = turning(w);
    Inflections {
        turning,
        count: count(turning),
        straight: is_straight(turning),
    }
}
