// The square root of a polynomial over whole numbers, from the highest power down. Each coefficient is an exact quotient, so that the square
// agrees from the fourth power up, and a comparison of the powers below decides. That a polynomial's coefficients are sized stands in the
// contracts and not in `Octic`: those of a square are larger.
#![tactic(auto)]

ghost use Rattle.std.specs.Prelude.{◌≡◌, ◌∷◌, ◌≢◌, ◌+◌, ◌≤◌, pos, ◌*ℤ◌};
ghost use Rattle.whole.specs.Number.{wholes, Tells};
ghost use Rattle.whole.specs.Coefficients.{at};
ghost use Rattle.poly.specs.Polynomials.{Same};
ghost use Rattle.whole.specs.Promise.{Divisible};
ghost use Rattle.poly.specs.Terms.{Above, Top};
ghost use Rattle.root.specs.Search.{Each, SameBelow};
ghost use Rattle.root.specs.Promise.{octic, quartic, Sized, Small, IsSquare, IsWholeRoot};
ghost use Rattle.root.specs.Steps.{IsCoefficient, IsLead, IsSearch};

use whole::{exact_root, quotient};

// How large a coefficient of a root may be.
const ROOT_SIZE: u64 = 20000000;

// m0 + m1 t + .. + m8 t^8
// Named fields, here and in `Quartic`: `square` and `candidate_of` have a formula of its own for each coefficient, which an array would number.
#[derive(Clone, Copy, Debug, PartialEq, Eq)]
pub struct Octic {
    pub m0: i64,
    pub m1: i64,
    pub m2: i64,
    pub m3: i64,
    pub m4: i64,
    pub m5: i64,
    pub m6: i64,
    pub m7: i64,
    pub m8: i64,
}

// q0 + q1 t + .. + q4 t^4
#[derive(Clone, Copy, Debug, PartialEq, Eq)]
pub struct Quartic {
    pub q0: i64,
    pub q1: i64,
    pub q2: i64,
    pub q3: i64,
    pub q4: i64,
}

// Why a root has no such coefficient: it is no whole number, or not small. No caller asks which: the promise `IsCoefficient` tells the two apart, and
// the theorem `coefficient_once` speaks of both.
#[derive(Clone, Copy, Debug, PartialEq, Eq)]
pub enum NoCoefficient {
    Fraction,
    TooLarge,
}

// The square of q.
pub fn square(q: Quartic) -> Octic
    requires { Each wholes Small (quartic q) }
    ensures { IsSquare q result }
{
    let Quartic { q0, q1, q2, q3, q4 } = q;
    let d0 = 2 * q0;
    let d1 = 2 * q1;
    let d2 = 2 * q2;
    Octic {
        m0: q0 * q0,
        m1: d0 * q1,
        m2: d0 * q2 + q1 * q1,
        m3: d0 * q3 + d1 * q2,
        m4: d0 * q4 + d1 * q3 + q2 * q2,
        m5: d1 * q4 + d2 * q3,
        m6: d2 * q4 + q3 * q3,
        m7: 2 * q3 * q4,
        m8: q4 * q4,
    }
}

// Whether a and b agree below the fourth power.
fn same_below(a: Octic, b: Octic) -> bool
    ensures { Tells (SameBelow wholes 4 (octic a) (octic b)) result }
{
    (a.m3, a.m2, a.m1, a.m0) == (b.m3, b.m2, b.m1, b.m0)
}

// The coefficient x with t x = n. A large fraction is a fraction.
fn coefficient_of(n: i64, t: i64) -> Result<i64, NoCoefficient>
    requires { Divisible n t }
    ensures { IsCoefficient n t result }
{
    let x = quotient(n, t).ok_or(NoCoefficient::Fraction)?;
    if ROOT_SIZE < x.unsigned_abs() {
        Err(NoCoefficient::TooLarge)
    } else {
        Ok(x)
    }
}

// The polynomial with s at the fourth power whose square is m from there up: each coefficient is decided by those above it.
fn candidate_of(m: Octic, s: i64) -> Option<Quartic>
    requires { Each wholes Sized (octic m) × Small s × (s ≢ pos 0) × (s *ℤ s ≡ m.m8) }
    ensures { IsSearch (octic m) s result }
{
    let t = s + s;
    let q3 = coefficient_of(m.m7, t).ok()?;
    let q2 = coefficient_of(m.m6 - q3 * q3, t).ok()?;
    let q1 = coefficient_of(m.m5 - 2 * (q2 * q3), t).ok()?;
    let q0 = coefficient_of(m.m4 - (2 * (q1 * q3) + q2 * q2), t).ok()?;
    Some(Quartic {
        q0,
        q1,
        q2,
        q3,
        q4: s,
    })
}

// The root of the highest coefficient, if it is a square.
fn lead_of(m: i64) -> Option<i64>
    ensures { IsLead m result }
{
    let s = exact_root(u64::try_from(m).ok()?)?;
    // `as`: the root of a number below 2^63 is small; `try_from` would have an error that never comes.
    Some(s as i64)
}

// The root of a polynomial with a coefficient at the eighth power.
fn quartic_root(m: Octic) -> Option<Quartic>
    requires { Each wholes Sized (octic m) × Top wholes (octic m) 8 }
    ensures { IsWholeRoot (octic m) result }
{
    let s = lead_of(m.m8)?;
    let q = candidate_of(m, s)?;
    if same_below(square(q), m) {
        Some(q)
    } else {
        None
    }
}

// t² m, where m has no power above the sixth.
fn raised(m: Octic) -> Octic
    requires { Above wholes (at wholes (octic m)) 6 }
    ensures { Same wholes (octic result) (pos 0 ∷ pos 0 ∷ octic m) }
{
    Octic {
        m0: 0,
        m1: 0,
        m2: m.m0,
        m3: m.m1,
        m4: m.m2,
        m5: m.m3,
        m6: m.m4,
        m7: m.m5,
        m8: m.m6,
    }
}

// q / t, where q has no constant coefficient.
fn lowered(q: Quartic) -> Quartic
    requires { q.q0 ≡ pos 0 }
    ensures { Same wholes (quartic q) (pos 0 ∷ quartic result) }
{
    Quartic {
        q0: q.q1,
        q1: q.q2,
        q2: q.q3,
        q3: q.q4,
        q4: 0,
    }
}

// The root of a polynomial whose highest power is 2 l. Below the eighth power it is that of t² m, divided by t.
pub fn whole_root(m: Octic, l: u64) -> Option<Quartic>
    requires { Each wholes Sized (octic m) × Top wholes (octic m) (l + l) × (l ≤ 4) }
    ensures { IsWholeRoot (octic m) result }
{
    if l == 4 {
        return quartic_root(m);
    }
    let q = whole_root(raised(m), l + 1)?;
    Some(lowered(q))
}
