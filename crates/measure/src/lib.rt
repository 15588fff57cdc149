// The length and the inflections of a curve with a pre-image.
#![tactic(auto)]

pub mod counting;
pub mod lengths;

ghost use Rattle.measure.specs.Promise.{Measured, Inflected};

use counting::{Inflections, inflections_by};
use curve::Curve;
use lengths::Length;
pub use lengths::length_by;
use refusal::Refusal;
use verdict::preimage_of;

// t0 + t1 t + t2 t^2
#[derive(Clone, Copy, Debug, PartialEq, Eq)]
pub struct Turning {
    pub t0: i64,
    pub t1: i64,
    pub t2: i64,
}

// The length, as a root and a fraction.
pub fn length(curve: Curve) -> Result<Length, Refusal>
    ensures { Measured curve result }
{
    Ok(length_by(curve, preimage_of(curve)?.square))
}

// How the curve turns: its turning polynomial, how often that changes its sign inside, and whether it is zero throughout.
pub fn inflections(curve: Curve) -> Result<Inflections, Refusal>
    ensures { Inflected curve result }
{
    Ok(inflections_by(preimage_of(curve)?.w))
}
