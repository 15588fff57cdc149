// Whether a curve is in range: every coordinate from -20,000 to 20,000.
ghost use Rattle.whole.specs.Number.{Tells};
ghost use Rattle.pair.specs.Pairs.{PartsWithin};
ghost use Rattle.curve.specs.Curves.{points_of, InRange};
ghost use Rattle.curve.specs.Sizes.{coordinate_reach};

use crate::{COORDINATE_REACH, Curve};
use pair::{Pair, within};

fn near(p: Pair) -> bool
    ensures { Tells (PartsWithin coordinate_reach p) result }
{
    within(p, COORDINATE_REACH)
}

// Whether every coordinate is from -20,000 to 20,000.
pub fn in_range(curve: Curve) -> bool
    ensures { Tells (InRange (points_of curve)) result }
{
    match curve {
        Curve::Cubic(c) => near(c.p0) && near(c.p1) && near(c.p2) && near(c.p3),
        Curve::Quintic(c) => {
            near(c.p0) && near(c.p1) && near(c.p2) && near(c.p3) && near(c.p4) && near(c.p5)
        }
    }
}
