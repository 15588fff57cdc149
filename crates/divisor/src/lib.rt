// Quotients, greatest common divisors and square roots of pairs.
// What is divided by has parts of at most 2^20 in size, and what is divided, of 2^40, so that the parts of a conj(b) fit. This stands in the
// contracts and not in a type of such divisions, which Euclid's loop would have to build anew at each step.
// `as`: what is cast is at least 0 and below 2^63, as each contract shows; `try_from` would have an error that never comes.
#![tactic(auto)]

ghost use Rattle.std.specs.Prelude.{◌≡◌, ◌∷◌, [], ◌≢◌, ◌*◌, ◌^◌, pos, nat_abs, ◌≤ℤ◌, ◌<ℤ◌};
ghost use Rattle.whole.specs.Number.{Within};
ghost use Rattle.whole.specs.Coefficients.{Divides, Greatest};
ghost use Rattle.pair.specs.Pairs.{pair, pairs, times, conjugate, norm, PartsWithin};
ghost use Rattle.divisor.specs.Promise.{IsPairQuotient, IsOverWhole, NearestPair, IsPairRoot};
ghost use Rattle.divisor.specs.Steps.{rounded as rounded_of, Near, Rest, HalfRoot, Candidate};

use pair::{Pair, difference, is_zero, norm, product};
use whole::{exact_root, square_root};

// 2^42, by way of which one division serves both parts of a quotient: n / d is near to n times SCALE / d, over SCALE.
const SCALE: i64 = 1 << 42;

const HALF_SCALE: i64 = 1 << 41;

// 2^36: up to here |b|^2 is small enough for SCALE to tell a near quotient.
const NEAR_NORM: i64 = 1 << 36;

// a conj(b), whose parts over |b|² are those of a / b.
fn numerator(a: Pair, b: Pair) -> Pair
    requires { PartsWithin (2 ^ 40) a × PartsWithin (2 ^ 20) b }
    ensures { result ≡ times a (conjugate b) }
{
    Pair {
        re: a.re * b.re + a.im * b.im,
        im: a.im * b.re - a.re * b.im,
    }
}

// a / n where n divides both parts of a.
pub fn over_whole(a: Pair, n: i64) -> Option<Pair>
    requires { pos 0 <ℤ n }
    ensures { IsOverWhole a n result }
{
    Some(Pair {
        re: whole::quotient(a.re, n)?,
        im: whole::quotient(a.im, n)?,
    })
}

// a / b where b divides a.
pub fn quotient(a: Pair, b: Pair) -> Option<Pair>
    requires { PartsWithin (2 ^ 40) a × PartsWithin (2 ^ 20) b × (b ≢ pairs.none) }
    ensures { IsPairQuotient a b result }
{
    over_whole(numerator(a, b), norm(b))
}

// a / b, which is known to be a pair. What SCALE / |b|^2 + 1 has too much is cut off again.
pub fn share(a: Pair, b: Pair) -> Pair
    requires { PartsWithin (2 ^ 20) a × PartsWithin (2 ^ 20) b × (b ≢ pairs.none) × Divides pairs b a }
    ensures { times b result ≡ a }
{
    let n = numerator(a, b);
    let r = SCALE / norm(b) + 1;
    Pair {
        re: n.re * r / SCALE,
        im: n.im * r / SCALE,
    }
}

// The pair nearest to a / b, part by part.
pub fn nearest(a: Pair, b: Pair) -> Pair
    requires { PartsWithin (2 ^ 20) a × PartsWithin (2 ^ 20) b × (b ≢ pairs.none) }
    ensures { NearestPair a b result }
{
    let n = numerator(a, b);
    let d = norm(b);
    Pair {
        re: whole::nearest(n.re, d),
        im: whole::nearest(n.im, d),
    }
}

// n / d to the nearest, but for what SCALE / d cut down leaves out.
fn rounded(n: Pair, d: i64) -> Pair
    requires { (pos 0 <ℤ d) × PartsWithin (2 ^ 20 * nat_abs d) n }
    ensures { result ≡ pair (rounded_of n.re d) (rounded_of n.im d) }
{
    let r = SCALE / d;
    Pair {
        re: (n.re * r + HALF_SCALE) >> 42,
        im: (n.im * r + HALF_SCALE) >> 42,
    }
}

// A pair near a / b, by one division for all but the largest b.
fn near(a: Pair, b: Pair) -> Pair
    requires { PartsWithin (2 ^ 20) a × PartsWithin (2 ^ 20) b × (b ≢ pairs.none) }
    ensures { Near a b result }
{
    let d = norm(b);
    if d > NEAR_NORM {
        return nearest(a, b);
    }
    rounded(numerator(a, b), d)
}

// What is left of a over b.
fn rest(a: Pair, b: Pair) -> Pair
    requires { PartsWithin (2 ^ 20) a × PartsWithin (2 ^ 20) b × (b ≢ pairs.none) }
    ensures { Rest a b result }
{
    difference(a, product(near(a, b), b))
}

// The greatest common divisor of two pairs, by Euclid's loop. A zero in a list takes no step.
pub fn gcd(a: Pair, b: Pair) -> Pair
    requires { PartsWithin (2 ^ 20) a × PartsWithin (2 ^ 20) b }
    ensures { Greatest pairs (a ∷ b ∷ []) result }
{
    if is_zero(a) {
        return b;
    }
    let mut x = a;
    let mut y = b;
    while norm(y) != 0 {
        (x, y) = (y, rest(x, y));
    }
    x
}

// The whole root of the half of s, whatever it leaves over: `kept` multiplies out.
fn half_root(s: i64) -> i64
    requires { (pos 0 ≤ℤ s) × Within (2 ^ 32) s }
    ensures { HalfRoot s result }
{
    square_root(s as u64 / 2).root as i64
}

// A root of z = x + iy, if it has one, where n is |z|: a root u + iv has u² + v² = n, u² − v² = x and 2uv = y.
fn candidate(z: Pair, n: u64) -> Pair
    requires { PartsWithin (2 ^ 30) z × (pos (n * n) ≡ norm z) }
    ensures { Candidate z result }
{
    let size = n as i64;
    let re = half_root(size + z.re);
    let im = if re == 0 {
        half_root(size - z.re)
    } else {
        z.im / (re * 2)
    };
    Pair { re, im }
}

// w, if it is a root of z.
fn kept(z: Pair, w: Pair) -> Option<Pair>
    requires { Candidate z w }
    ensures { IsPairRoot z result }
{
    if product(w, w) == z { Some(w) } else { None }
}

// The square root of a pair. A square has a whole size |z|, so most pairs that are none are refused by |z|².
pub fn root(z: Pair) -> Option<Pair>
    requires { PartsWithin (2 ^ 30) z }
    ensures { IsPairRoot z result }
{
    let size = exact_root(norm(z) as u64)?;
    kept(z, candidate(z, size))
}
