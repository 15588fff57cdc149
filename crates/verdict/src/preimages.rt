// The numbers that the rules leave of D = k w^2: the signs of k and w, and with them c and q.
ghost use Rattle.std.specs.Prelude.{◌≡◌, [], ◌≢◌};
ghost use Rattle.whole.specs.Number.{FirstPositive, Tells};
ghost use Rattle.poly.specs.Polynomials.{Same, scaled, square};
ghost use Rattle.pair.specs.Pairs.{pairs, imaginary, PartsWithin, AllWithin};
ghost use Rattle.verdict.specs.Verdicts.{Coprime, Holds, quadratic, LeadKept};
ghost use Rattle.verdict.specs.Steps.{Signed, Normalised};

use crate::rules::Generator;
use crate::speeds::speed;
use crate::{Preimage, Quadratic, Square, Verdict};
use pair::{Pair, is_zero, negative, norm, turned};

// i w
fn turned_quadratic(w: Quadratic) -> Quadratic
    requires { AllWithin 20000 (quadratic w) }
    ensures { Same pairs (quadratic result) (scaled pairs imaginary (quadratic w)) }
{
    Quadratic {
        b0: turned(w.b0),
        b1: turned(w.b1),
        b2: turned(w.b2),
    }
}

// Whether the first part of a pair that is not zero is positive.
fn first_positive(p: Pair) -> bool
    ensures { Tells (FirstPositive p.re p.im) result }
{
    p.re > 0 || p.re == 0 && p.im > 0
}

// Whether this holds of the highest coefficient of w that is not zero.
fn lead_positive(w: Quadratic) -> bool
    ensures { Tells (LeadKept (quadratic w)) result }
{
    if !is_zero(w.b2) {
        first_positive(w.b2)
    } else if !is_zero(w.b1) {
        first_positive(w.b1)
    } else {
        first_positive(w.b0)
    }
}

// w or -w: the one with a positive lead.
fn signed(w: Quadratic) -> Quadratic
    requires { AllWithin 20000 (quadratic w) × (Same pairs (quadratic w) [] → ⊥) }
    ensures { Signed (quadratic w) (quadratic result) }
{
    if lead_positive(w) {
        w
    } else {
        turned_quadratic(turned_quadratic(w))
    }
}

// D = k w^2 by the k and w that the rules leave: k w^2 = (-k) (i w)^2.
fn normalised(s: Generator, square: Square) -> Preimage
    requires { PartsWithin 1280000 s.k × (s.k ≢ pairs.none) × AllWithin 20000 (quadratic s.w) × (Same pairs (quadratic s.w) [] → ⊥) }
    ensures { Normalised s.k (quadratic s.w) result × (result.square ≡ square) }
{
    if first_positive(s.k) {
        Preimage {
            kappa: s.k,
            w: signed(s.w),
            square,
        }
    } else {
        Preimage {
            kappa: negative(s.k),
            w: signed(turned_quadratic(s.w)),
            square,
        }
    }
}

// The verdict on k w^2, where w has no common divisor: N is |k|^2 times the square of |w|^2.
pub(crate) fn generated(s: Generator) -> Verdict
    requires { PartsWithin 1280000 s.k × (s.k ≢ pairs.none) × AllWithin 20000 (quadratic s.w) × Coprime (quadratic s.w) }
    ensures { Holds (scaled pairs s.k (square pairs (quadratic s.w))) result }
{
    let square = Square {
        c: norm(s.k),
        q: speed(s.w),
    };
    Verdict::Pre(normalised(s, square))
}
