// Cubics and quintics from a first point and a pre-image: their legs are the square of a polynomial that is given by its Bernstein coefficients.
// The range of each w stands in the contracts: the public calls take pairs of any size, and a struct of w would be filled there only to be taken apart.
#![tactic(auto)]

ghost use Rattle.std.specs.Prelude.{◌≡◌, ◌∷◌, [], ◌^◌};
ghost use Rattle.whole.specs.Number.{Tells};
ghost use Rattle.pair.specs.Pairs.{times, PartsWithin};
ghost use Rattle.curve.specs.Curves.{points_of};
ghost use Rattle.curve.specs.Sizes.{coordinate_reach};
ghost use Rattle.build.specs.Promise.{cubic, quintic, thrice, points, Allowed, Built, source_reach};
ghost use Rattle.build.specs.Steps.{Next, Ranged};

use curve::{COORDINATE_REACH, Cubic, Curve, Quintic, in_range};
use divisor::over_whole;
use pair::{Pair, ZERO, multiple, product, sum, three_are_zero, within};
use refusal::Refusal;

// How far a part of w may be from 0.
const SOURCE_REACH: u32 = 200;

// Whether p0 and each w are in range. A cubic has two: 0 stands for the third, so that one test of three serves both kinds without a loop.
fn allowed(p0: Pair, w0: Pair, w1: Pair, w2: Pair) -> bool
    ensures { Tells (Allowed p0 (w0 ∷ w1 ∷ w2 ∷ [])) result }
{
    within(p0, COORDINATE_REACH)
        && within(w0, SOURCE_REACH)
        && within(w1, SOURCE_REACH)
        && within(w2, SOURCE_REACH)
}

// 2 w1^2 + w0 w2
fn thrice_middle(w0: Pair, w1: Pair, w2: Pair) -> Pair
    requires { PartsWithin source_reach w0 × PartsWithin source_reach w1 × PartsWithin source_reach w2 }
    ensures { result ≡ thrice w0 w1 w2 }
{
    sum(multiple(2, product(w1, w1)), product(w0, w2))
}

// p + a b: the next point, where the leg is a product.
fn next(p: Pair, a: Pair, b: Pair) -> Pair
    requires { PartsWithin (2 ^ 30) p × PartsWithin source_reach a × PartsWithin source_reach b }
    ensures { Next p (times a b) result }
{
    sum(p, product(a, b))
}

// By hand for each kind: the middle leg of a quintic is no product of two w, so a loop over the legs would need a list of them first.
fn cubic_points(p0: Pair, w0: Pair, w1: Pair) -> Curve
    requires { PartsWithin coordinate_reach p0 × PartsWithin source_reach w0 × PartsWithin source_reach w1 }
    ensures { points_of result ≡ points p0 (times w0 w0 ∷ times w0 w1 ∷ times w1 w1 ∷ []) }
{
    let p1 = next(p0, w0, w0);
    let p2 = next(p1, w0, w1);
    let p3 = next(p2, w1, w1);
    Curve::Cubic(Cubic { p0, p1, p2, p3 })
}

// d2 is the middle leg.
fn quintic_points(p0: Pair, w0: Pair, w1: Pair, w2: Pair, d2: Pair) -> Curve
    requires { PartsWithin coordinate_reach p0 × PartsWithin source_reach w0 × PartsWithin source_reach w1 × PartsWithin source_reach w2 × PartsWithin 240000 d2 }
    ensures { points_of result ≡ points p0 (times w0 w0 ∷ times w0 w1 ∷ d2 ∷ times w1 w2 ∷ times w2 w2 ∷ []) }
{
    let p1 = next(p0, w0, w0);
    let p2 = next(p1, w0, w1);
    let p3 = sum(p2, d2);
    let p4 = next(p3, w1, w2);
    let p5 = next(p4, w2, w2);
    Curve::Quintic(Quintic {
        p0,
        p1,
        p2,
        p3,
        p4,
        p5,
    })
}

// The curve, if it is in range.
fn ranged(curve: Curve) -> Result<Curve, Refusal>
    ensures { Ranged (points_of curve) result }
{
    if in_range(curve) {
        Ok(curve)
    } else {
        Err(Refusal::Range)
    }
}

// The cubic from p0 with the legs w0^2, w0 w1, w1^2.
pub fn build_cubic(p0: Pair, w0: Pair, w1: Pair) -> Result<Curve, Refusal>
    ensures { Built p0 (cubic w0 w1) result }
{
    if !allowed(p0, w0, w1, ZERO) {
        return Err(Refusal::Range);
    }
    if three_are_zero(w0, w1, ZERO) {
        return Err(Refusal::Still);
    }
    ranged(cubic_points(p0, w0, w1))
}

// The quintic from p0 with the legs w0^2, w0 w1, (2 w1^2 + w0 w2) / 3, w1 w2, w2^2.
pub fn build_quintic(p0: Pair, w0: Pair, w1: Pair, w2: Pair) -> Result<Curve, Refusal>
    ensures { Built p0 (quintic w0 w1 w2) result }
{
    if !allowed(p0, w0, w1, w2) {
        return Err(Refusal::Range);
    }
    if three_are_zero(w0, w1, w2) {
        return Err(Refusal::Still);
    }
    let d2 = over_whole(thrice_middle(w0, w1, w2), 3).ok_or(Refusal::Thirds)?;
    ranged(quintic_points(p0, w0, w1, w2, d2))
}
