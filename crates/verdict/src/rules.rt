// Whether D is k w^2, by the rules of the legs, and one k and w of it: where v has v^2 = d D and the greatest common divisor e, w is v / e, and
// k is e^2 / d.
ghost use Rattle.std.specs.Prelude.{◌≡◌, ◌∷◌, [], ◌≢◌};
ghost use Rattle.pair.specs.Pairs.{pairs, PartsWithin, AllWithin};
ghost use Rattle.bernstein.specs.Powers.{power_form};
ghost use Rattle.curve.specs.Steps.{legs_of};
ghost use Rattle.curve.specs.Sizes.{leg_reach};
ghost use Rattle.verdict.specs.Steps.{Shared, Over, MeetsRule, ByMiddle, IsGeneration, IsLine, IsMiddle, middle_size};

use crate::Quadratic;
use curve::Legs;
use divisor::{gcd, quotient, share};
use pair::{Pair, ZERO, difference, is_zero, multiple, product, sum, within};

// How large a part of the m of the quintic rule may be.
const MIDDLE_SIZE: u32 = 56568;

// D = k w^2
#[derive(Clone, Copy, Debug, PartialEq, Eq)]
pub struct Generator {
    pub k: Pair,
    pub w: Quadratic,
}

// v / e, and e^2 / d, where d is the first of v: it is e over the first of v / e.
fn over(e: Pair, d: Pair, v1: Pair, v2: Pair) -> Generator
    requires { Shared e d v1 v2 }
    ensures { Over e d v1 v2 result }
{
    let b0 = share(d, e);
    let b1 = share(v1, e);
    let b2 = share(v2, e);
    let k = share(e, b0);
    Generator {
        k,
        w: Quadratic { b0, b1, b2 },
    }
}

// The rule of three Bernstein coefficients.
fn line_generator(e0: Pair, e1: Pair, e2: Pair) -> Option<Generator>
    requires { PartsWithin 240000 e0 × PartsWithin 240000 e1 × PartsWithin 240000 e2 }
    ensures { IsLine (power_form (e0 ∷ e1 ∷ e2 ∷ [])) result }
{
    if product(e1, e1) != product(e0, e2) {
        return None;
    }
    if is_zero(e0) {
        let one = Pair { re: 1, im: 0 };
        return Some(Generator {
            k: e2,
            w: Quadratic {
                b0: ZERO,
                b1: one,
                b2: ZERO,
            },
        });
    }
    Some(over(gcd(e0, e1), e0, difference(e1, e0), ZERO))
}

// (3 d0 d2 - 2 d1^2) / d0, if it is a pair and not too large to be m.
fn middle_of(d0: Pair, d1: Pair, d2: Pair) -> Option<Pair>
    requires { PartsWithin leg_reach d0 × PartsWithin leg_reach d1 × PartsWithin leg_reach d2 × (d0 ≢ pairs.none) }
    ensures { IsMiddle d0 d1 d2 result }
{
    let square = product(d1, d1);
    let x = quotient(sum(square, square), d0)?;
    let m = difference(multiple(3, d2), x);
    if within(m, MIDDLE_SIZE) {
        Some(m)
    } else {
        None
    }
}

// The generator that an m leaves which meets the rule, whatever the other legs are.
fn by_middle(d0: Pair, d1: Pair, m: Pair) -> Generator
    requires { PartsWithin leg_reach d0 × PartsWithin leg_reach d1 × PartsWithin middle_size m × (d0 ≢ pairs.none) × MeetsRule d0 d1 m }
    ensures { ByMiddle d0 d1 m result }
{
    let twice = multiple(2, d1);
    let e = gcd(twice, gcd(m, d0));
    over(
        e,
        d0,
        multiple(2, difference(d1, d0)),
        sum(difference(d0, twice), m),
    )
}

// D / t^2 of a quintic whose first leg is 0 has three Bernstein coefficients.
fn end_generator(d1: Pair, d2: Pair, d3: Pair, d4: Pair) -> Option<Generator>
    requires { PartsWithin leg_reach d2 × PartsWithin leg_reach d3 × PartsWithin leg_reach d4 }
    ensures { IsGeneration (power_form (pairs.none ∷ d1 ∷ d2 ∷ d3 ∷ d4 ∷ [])) result }
{
    if !is_zero(d1) {
        return None;
    }
    let s = line_generator(multiple(6, d2), multiple(2, d3), d4)?;
    Some(Generator {
        k: s.k,
        w: Quadratic {
            b0: ZERO,
            b1: s.w.b0,
            b2: s.w.b1,
        },
    })
}

// Five arguments, as `Legs` has five fields, and no array of them: it would be filled for this call alone, only to be taken apart at once.
fn quintic_generator(d0: Pair, d1: Pair, d2: Pair, d3: Pair, d4: Pair) -> Option<Generator>
    requires { AllWithin leg_reach (d0 ∷ d1 ∷ d2 ∷ d3 ∷ d4 ∷ []) }
    ensures { IsGeneration (power_form (d0 ∷ d1 ∷ d2 ∷ d3 ∷ d4 ∷ [])) result }
{
    if is_zero(d0) {
        return end_generator(d1, d2, d3, d4);
    }
    let m = middle_of(d0, d1, d2)?;
    if product(d1, m) != product(d0, d3) || product(m, m) != product(d0, d4) {
        return None;
    }
    Some(by_middle(d0, d1, m))
}

// The k and w of D, from the legs.
pub(crate) fn generator_of(legs: Legs) -> Option<Generator>
    requires { AllWithin leg_reach (legs_of legs) }
    ensures { IsGeneration (power_form (legs_of legs)) result }
{
    match legs {
        Legs::Cubic(d0, d1, d2) => line_generator(d0, d1, d2),
        Legs::Quintic(d0, d1, d2, d3, d4) => quintic_generator(d0, d1, d2, d3, d4),
    }
}
