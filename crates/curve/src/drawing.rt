// The legs of a curve, and D as powers of t, by the table of differences of the legs.
ghost use Rattle.std.specs.Prelude.{◌≡◌, ◌∷◌, []};
ghost use Rattle.poly.specs.Polynomials.{Same};
ghost use Rattle.pair.specs.Pairs.{pairs, PartsWithin, AllWithin};
ghost use Rattle.bernstein.specs.Powers.{differences, power_form};
ghost use Rattle.curve.specs.Curves.{points_of, InRange};
ghost use Rattle.curve.specs.Steps.{legs_of, leg_powers, second_of};
ghost use Rattle.curve.specs.Sizes.{leg_reach};

use crate::{Curve, LegPowers, Legs};
use pair::{Pair, ZERO, difference, multiple};

pub fn legs_of(curve: Curve) -> Legs
    requires { InRange (points_of curve) }
    ensures { legs_of result ≡ differences (points_of curve) }
{
    match curve {
        Curve::Cubic(c) => Legs::Cubic(
            difference(c.p1, c.p0),
            difference(c.p2, c.p1),
            difference(c.p3, c.p2),
        ),
        Curve::Quintic(c) => Legs::Quintic(
            difference(c.p1, c.p0),
            difference(c.p2, c.p1),
            difference(c.p3, c.p2),
            difference(c.p4, c.p3),
            difference(c.p5, c.p4),
        ),
    }
}

// The second difference of three that follow one another.
fn second(a: Pair, b: Pair, c: Pair) -> Pair
    requires { PartsWithin 160000 a × PartsWithin 160000 b × PartsWithin 160000 c }
    ensures { result ≡ second_of a b c }
{
    difference(difference(c, b), difference(b, a))
}

// By hand: each degree writes its row of binomials out; one function over a slice of legs takes a table of differences and two loops.
fn cubic_drawn(d0: Pair, d1: Pair, d2: Pair) -> LegPowers
    requires { AllWithin leg_reach (d0 ∷ d1 ∷ d2 ∷ []) }
    ensures { Same pairs (leg_powers result) (power_form (d0 ∷ d1 ∷ d2 ∷ [])) }
{
    LegPowers {
        e0: d0,
        e1: multiple(2, difference(d1, d0)),
        e2: second(d0, d1, d2),
        e3: ZERO,
        e4: ZERO,
    }
}

fn quintic_drawn(d0: Pair, d1: Pair, d2: Pair, d3: Pair, d4: Pair) -> LegPowers
    requires { AllWithin leg_reach (d0 ∷ d1 ∷ d2 ∷ d3 ∷ d4 ∷ []) }
    ensures { Same pairs (leg_powers result) (power_form (d0 ∷ d1 ∷ d2 ∷ d3 ∷ d4 ∷ [])) }
{
    let s0 = second(d0, d1, d2);
    let s1 = second(d1, d2, d3);
    let s2 = second(d2, d3, d4);
    LegPowers {
        e0: d0,
        e1: multiple(4, difference(d1, d0)),
        e2: multiple(6, s0),
        e3: multiple(4, difference(s1, s0)),
        e4: second(s0, s1, s2),
    }
}

// D, from the legs.
pub fn drawn(legs: Legs) -> LegPowers
    requires { AllWithin leg_reach (legs_of legs) }
    ensures { Same pairs (leg_powers result) (power_form (legs_of legs)) }
{
    match legs {
        Legs::Cubic(d0, d1, d2) => cubic_drawn(d0, d1, d2),
        Legs::Quintic(d0, d1, d2, d3, d4) => quintic_drawn(d0, d1, d2, d3, d4),
    }
}
