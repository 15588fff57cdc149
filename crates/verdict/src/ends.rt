// The ends of a curve, which refuse most curves that are not Pythagorean: where N = c q^2, the norm of a leg at an end divides a multiple of
// the square of its cross product with the next.
ghost use Rattle.std.specs.Prelude.{◌≡◌, ◌≢◌, ◌*◌, ◌%◌, ◌≤◌, pos};
ghost use Rattle.whole.specs.Number.{Tells};
ghost use Rattle.pair.specs.Pairs.{pairs, PartsWithin, AllWithin};
ghost use Rattle.curve.specs.Steps.{legs_of};
ghost use Rattle.curve.specs.Sizes.{leg_reach};
ghost use Rattle.verdict.specs.Rules.{EndDivides};
ghost use Rattle.verdict.specs.Steps.{FirstEnd, LastEnd, reversed};

use curve::Legs;
use pair::{Pair, cross, is_zero, norm};

// Whether d divides n times the square of x, by remainders: by one, unless n x^2 might not fit.
fn divides_square(d: u64, x: u64, n: u64) -> bool
    requires { (d ≢ 0) × (d ≤ 3200000000) × (x ≤ 3200000000) × (n ≤ 8) }
    ensures { Tells (x * x * n % d ≡ 0) result }
{
    if x <= 1073741824 {
        x * x * n % d == 0
    } else {
        (x * x % d) * n % d == 0
    }
}

// Whether |d|^2 divides n (d × e)^2.
fn end_divides(d: Pair, e: Pair, n: u64) -> bool
    requires { PartsWithin leg_reach d × PartsWithin leg_reach e × (n ≤ 8) }
    ensures { Tells (EndDivides (pos n) d e) result }
{
    // `as`: a norm is at least 0; `try_from` would have an error that never comes.
    is_zero(d) || divides_square(norm(d) as u64, cross(d, e).unsigned_abs(), n)
}

// The legs in the other order. A curve that is run backwards has these, but for their signs.
fn reversed(legs: Legs) -> Legs
    ensures { result ≡ reversed legs }
{
    match legs {
        Legs::Cubic(d0, d1, d2) => Legs::Cubic(d2, d1, d0),
        Legs::Quintic(d0, d1, d2, d3, d4) => Legs::Quintic(d4, d3, d2, d1, d0),
    }
}

// Whether it is so at the first leg.
pub(crate) fn first_end(legs: Legs) -> bool
    requires { AllWithin leg_reach (legs_of legs) }
    ensures { Tells (FirstEnd legs) result }
{
    match legs {
        Legs::Cubic(d0, d1, _) => end_divides(d0, d1, 2),
        Legs::Quintic(d0, d1, _, _, _) => end_divides(d0, d1, 8),
    }
}

// Whether it is so at the last.
pub(crate) fn last_end(legs: Legs) -> bool
    requires { AllWithin leg_reach (legs_of legs) }
    ensures { Tells (LastEnd legs) result }
{
    first_end(reversed(legs))
}
