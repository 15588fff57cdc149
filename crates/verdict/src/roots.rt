// Whether N = c q^2, where D is no k w^2: c is what N's coefficients have in common, and N / c has a root or has none.
ghost use Rattle.std.specs.Prelude.{◌≡◌, [], ◌+◌, pos, ◌<ℤ◌};
ghost use Rattle.whole.specs.Number.{wholes};
ghost use Rattle.poly.specs.Polynomials.{Same, scaled, sum};
ghost use Rattle.whole.specs.Coefficients.{Greatest};
ghost use Rattle.poly.specs.Terms.{Top};
ghost use Rattle.pair.specs.Pairs.{AllWithin};
ghost use Rattle.root.specs.Promise.{octic, quartic, Sized};
ghost use Rattle.root.specs.Search.{Each};
ghost use Rattle.bernstein.specs.Powers.{power_form};
ghost use Rattle.curve.specs.Curves.{reals, imaginaries, norm_polynomial};
ghost use Rattle.curve.specs.Steps.{legs_of, leg_powers};
ghost use Rattle.verdict.specs.Verdicts.{NotGenerated, Holds};
ghost use Rattle.verdict.specs.Steps.{IsHighest, ArePartsBy, OfLegs};

use crate::{Square, Verdict};
use curve::{LegPowers, Legs, drawn};
use pair::{Pair, is_zero};
use root::{Octic, Quartic, square, whole_root};
use whole::{gcd_all, share};

// The highest power of a polynomial that has a coefficient other than 0.
// By hand: `rposition` over the five coefficients says which test told first, and the proof did not close over what it tells of the others.
fn degree(e: LegPowers) -> Option<u64>
    ensures { IsHighest (leg_powers e) result }
{
    if !is_zero(e.e4) {
        Some(4)
    } else if !is_zero(e.e3) {
        Some(3)
    } else if !is_zero(e.e2) {
        Some(2)
    } else if !is_zero(e.e1) {
        Some(1)
    } else if !is_zero(e.e0) {
        Some(0)
    } else {
        None
    }
}

// Field by field, as in `shared`: root names the coefficients of an `Octic`, since `square` has a formula for each.
fn added(a: Octic, b: Octic) -> Octic
    requires { Each wholes Sized (octic a) × Each wholes Sized (octic b) }
    ensures { octic result ≡ sum wholes (octic a) (octic b) }
{
    Octic {
        m0: a.m0 + b.m0,
        m1: a.m1 + b.m1,
        m2: a.m2 + b.m2,
        m3: a.m3 + b.m3,
        m4: a.m4 + b.m4,
        m5: a.m5 + b.m5,
        m6: a.m6 + b.m6,
        m7: a.m7 + b.m7,
        m8: a.m8 + b.m8,
    }
}

// A part of each coefficient.
fn parts<F: Fn(Pair) -> i64>(e: LegPowers, part: F) -> Quartic
    requires { F.IsAlwaysCallable part }
    ensures { ArePartsBy (F.post part) (leg_powers e) (quartic result) }
{
    Quartic {
        q0: part(e.e0),
        q1: part(e.e1),
        q2: part(e.e2),
        q3: part(e.e3),
        q4: part(e.e4),
    }
}

// The coordinates of a polynomial of pairs.
pub fn reals(e: LegPowers) -> Quartic
    ensures { quartic result ≡ reals (leg_powers e) }
{
    parts(e, |z| z.re)
}

pub fn imaginaries(e: LegPowers) -> Quartic
    ensures { quartic result ≡ imaginaries (leg_powers e) }
{
    parts(e, |z| z.im)
}

// |e|^2
fn norm_polynomial(e: LegPowers) -> Octic
    requires { AllWithin 1280000 (leg_powers e) }
    ensures { Same wholes (octic result) (norm_polynomial (leg_powers e)) }
{
    added(square(reals(e)), square(imaginaries(e)))
}

// What the coefficients have in common, where one of them is not 0.
fn content(n: Octic) -> i64
    requires { Each wholes Sized (octic n) × (Same wholes (octic n) [] → ⊥) }
    ensures { Greatest wholes (octic n) result × (pos 0 <ℤ result) × Sized result }
{
    let all = [n.m0, n.m1, n.m2, n.m3, n.m4, n.m5, n.m6, n.m7, n.m8];
    // `as`: it is no larger than a coefficient that is not 0; `try_from` would have an error that never comes.
    gcd_all(&all) as i64
}

// n / c, coefficient by coefficient.
fn shared(n: Octic, c: i64) -> Octic
    requires { Each wholes Sized (octic n) × Greatest wholes (octic n) c × (pos 0 <ℤ c) × Sized c }
    ensures { Same wholes (scaled wholes c (octic result)) (octic n) × Each wholes Sized (octic result) }
{
    Octic {
        m0: share(n.m0, c),
        m1: share(n.m1, c),
        m2: share(n.m2, c),
        m3: share(n.m3, c),
        m4: share(n.m4, c),
        m5: share(n.m5, c),
        m6: share(n.m6, c),
        m7: share(n.m7, c),
        m8: share(n.m8, c),
    }
}

// The verdict on D that is no k w^2.
pub(crate) fn squared(legs: Legs) -> Verdict
    requires { OfLegs (legs_of legs) × NotGenerated (power_form (legs_of legs)) }
    ensures { Holds (power_form (legs_of legs)) result }
{
    let e = drawn(legs);
    let Some(l) = degree(e) else {
        return Verdict::Still;
    };
    let n = norm_polynomial(e);
    let c = content(n);
    let Some(q) = whole_root(shared(n, c), l) else {
        return Verdict::No;
    };
    Verdict::Ph(Square { c, q })
}
