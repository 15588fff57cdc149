// The verdict on a curve: whether it is Pythagorean, and by which numbers.
// How large legs and coefficients are stands in the contracts and not in `Legs` or `Quadratic`: the theorems `first-refused` and `last_refused` speak of any
// `Legs`, and a `Quadratic` has parts up to 20,000 while it is found, but up to 2,000 where `measure` takes it.
#![tactic(auto)]

mod ends;
mod preimages;
mod roots;
mod rules;
mod speeds;

ghost use Rattle.std.specs.Prelude.{[]};
ghost use Rattle.whole.specs.Number.{Tells};
ghost use Rattle.poly.specs.Polynomials.{Same};
ghost use Rattle.pair.specs.Pairs.{pairs};
ghost use Rattle.bernstein.specs.Powers.{power_form};
ghost use Rattle.curve.specs.Curves.{points_of};
ghost use Rattle.curve.specs.Steps.{legs_of};
ghost use Rattle.verdict.specs.Verdicts.{NotGenerated, Holds};
ghost use Rattle.verdict.specs.Promise.{Recognised, Preimaged};
ghost use Rattle.verdict.specs.Steps.{OfLegs};

use curve::{Curve, Legs, in_range, legs_of};
use ends::{first_end, last_end};
use pair::{Pair, is_zero, three_are_zero};
use preimages::generated;
use refusal::Refusal;
use root::Quartic;
use roots::squared;
pub use roots::{imaginaries, reals};
use rules::generator_of;

// b0 + b1 t + b2 t^2
#[derive(Clone, Copy, Debug, PartialEq, Eq)]
pub struct Quadratic {
    pub b0: Pair,
    pub b1: Pair,
    pub b2: Pair,
}

// N = c q^2
#[derive(Clone, Copy, Debug, PartialEq, Eq)]
pub struct Square {
    pub c: i64,
    pub q: Quartic,
}

// D = kappa w^2, and with it N = c q^2
#[derive(Clone, Copy, Debug, PartialEq, Eq)]
pub struct Preimage {
    pub kappa: Pair,
    pub w: Quadratic,
    pub square: Square,
}

#[derive(Clone, Copy, Debug, PartialEq, Eq)]
pub enum Verdict {
    Still,
    No,
    Ph(Square),
    Pre(Preimage),
}

// Whether every leg is 0.
fn is_still(legs: Legs) -> bool
    ensures { Tells (Same pairs (legs_of legs) []) result }
{
    match legs {
        Legs::Cubic(d0, d1, d2) => three_are_zero(d0, d1, d2),
        Legs::Quintic(d0, d1, d2, d3, d4) => {
            three_are_zero(d0, d1, d2) && is_zero(d3) && is_zero(d4)
        }
    }
}

// The verdict where D is no k w^2: most near misses fail at the last leg.
fn unmade(legs: Legs) -> Verdict
    requires { OfLegs (legs_of legs) × NotGenerated (power_form (legs_of legs)) }
    ensures { Holds (power_form (legs_of legs)) result }
{
    if !last_end(legs) {
        return Verdict::No;
    }
    squared(legs)
}

// The verdict, from the legs.
fn decide(legs: Legs) -> Verdict
    requires { OfLegs (legs_of legs) }
    ensures { Holds (power_form (legs_of legs)) result }
{
    if !first_end(legs) {
        return Verdict::No;
    }
    if is_still(legs) {
        return Verdict::Still;
    }
    let Some(s) = generator_of(legs) else {
        return unmade(legs);
    };
    generated(s)
}

// Whether a curve is Pythagorean, and if so by which numbers.
pub fn recognise(curve: Curve) -> Result<Verdict, Refusal>
    ensures { Recognised (points_of curve) result }
{
    if !in_range(curve) {
        return Err(Refusal::Range);
    }
    Ok(decide(legs_of(curve)))
}

// The pre-image, for the calls that measure a curve by it.
pub fn preimage_of(curve: Curve) -> Result<Preimage, Refusal>
    ensures { Preimaged (points_of curve) result }
{
    match recognise(curve)? {
        Verdict::Still => Err(Refusal::Still),
        Verdict::No => Err(Refusal::NotPh),
        Verdict::Ph(_) => Err(Refusal::NoPreimage),
        Verdict::Pre(p) => Ok(p),
    }
}
