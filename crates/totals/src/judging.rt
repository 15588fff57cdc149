// What is counted of a curve.
ghost use Rattle.curve.specs.Curves.{points_of, InRange, leg_polynomial};
ghost use Rattle.measure.specs.Lengths.{length_of};
ghost use Rattle.verdict.specs.Verdicts.{PreimageOf};
ghost use Rattle.totals.specs.Hundredths.{Hundredths};
ghost use Rattle.totals.specs.Steps.{Measurable, JudgedAs};

use crate::Counted;
use curve::Curve;
use measure::length_by;
use measure::lengths::Length;
use verdict::{Preimage, Verdict, recognise};
use whole::square_root;

// A length cut down to whole hundredths.
fn hundredths(l: Length) -> u64
    requires { Measurable l }
    ensures { Hundredths l result }
{
    let a = l.a.unsigned_abs();
    let b = l.b.unsigned_abs();
    let c = l.c.unsigned_abs();
    square_root(10000 * (c * (a * a)) / (b * b)).root
}

fn measured(curve: Curve, p: Preimage) -> u64
    requires { InRange (points_of curve) × PreimageOf (leg_polynomial (points_of curve)) p }
    ensures { Hundredths (length_of curve p.square) result }
{
    hundredths(length_by(curve, p.square))
}

pub(crate) fn judge(curve: Curve) -> Counted
    requires { InRange (points_of curve) }
    ensures { JudgedAs curve result }
{
    // A curve in range is not refused.
    match recognise(curve).unwrap() {
        Verdict::Still => Counted::Still,
        Verdict::No => Counted::No,
        Verdict::Ph(_) => Counted::Ph,
        Verdict::Pre(p) => Counted::Pre(measured(curve, p)),
    }
}
