// Pairs: complex numbers with whole parts. Their sums and products, and tests of them.
// What is multiplied has parts of at most 2^30 in size, so that the parts of a product, and a norm, are at most 2^61. What is only added,
// taken away or turned may be as large as a product. These bounds stand in the contracts and not in a type: the result of one operation is
// an argument of the next under another bound, so that a type for each would be converted at each step.
#![tactic(auto)]

ghost use Rattle.std.specs.Prelude.{◌≡◌, ◌∷◌, [], ◌^◌};
ghost use Rattle.whole.specs.Number.{Tells, Within};
ghost use Rattle.poly.specs.Polynomials.{Same};
ghost use Rattle.pair.specs.Pairs.{pairs, PartsWithin, plus, minus, negative, times, multiple, norm, cross, imaginary};

#[derive(Clone, Copy, Debug, PartialEq, Eq)]
pub struct Pair {
    pub re: i64,
    pub im: i64,
}

pub const ZERO: Pair = Pair { re: 0, im: 0 };

pub fn sum(a: Pair, b: Pair) -> Pair
    requires { PartsWithin (2 ^ 61) a × PartsWithin (2 ^ 61) b }
    ensures { result ≡ plus a b }
{
    Pair {
        re: a.re + b.re,
        im: a.im + b.im,
    }
}

pub fn difference(a: Pair, b: Pair) -> Pair
    requires { PartsWithin (2 ^ 61) a × PartsWithin (2 ^ 61) b }
    ensures { result ≡ minus a b }
{
    Pair {
        re: a.re - b.re,
        im: a.im - b.im,
    }
}

pub fn negative(a: Pair) -> Pair
    requires { PartsWithin (2 ^ 61) a }
    ensures { result ≡ negative a }
{
    Pair {
        re: -a.re,
        im: -a.im,
    }
}

// i a
pub fn turned(a: Pair) -> Pair
    requires { PartsWithin (2 ^ 61) a }
    ensures { result ≡ times imaginary a }
{
    Pair {
        re: -a.im,
        im: a.re,
    }
}

pub fn product(a: Pair, b: Pair) -> Pair
    requires { PartsWithin (2 ^ 30) a × PartsWithin (2 ^ 30) b }
    ensures { result ≡ times a b }
{
    Pair {
        re: a.re * b.re - a.im * b.im,
        im: a.re * b.im + a.im * b.re,
    }
}

pub fn multiple(k: i64, a: Pair) -> Pair
    requires { Within (2 ^ 30) k × PartsWithin (2 ^ 30) a }
    ensures { result ≡ multiple k a }
{
    Pair {
        re: k * a.re,
        im: k * a.im,
    }
}

pub fn norm(a: Pair) -> i64
    requires { PartsWithin (2 ^ 30) a }
    ensures { result ≡ norm a }
{
    a.re * a.re + a.im * a.im
}

// a × b
pub fn cross(a: Pair, b: Pair) -> i64
    requires { PartsWithin (2 ^ 30) a × PartsWithin (2 ^ 30) b }
    ensures { result ≡ cross a b }
{
    a.re * b.im - b.re * a.im
}

// Whether a pair is 0.
pub fn is_zero(p: Pair) -> bool
    ensures { Tells (p ≡ pairs.none) result }
{
    p.re == 0 && p.im == 0
}

// Whether a, b and c are all 0.
pub fn three_are_zero(a: Pair, b: Pair, c: Pair) -> bool
    ensures { Tells (Same pairs (a ∷ b ∷ c ∷ []) []) result }
{
    is_zero(a) && is_zero(b) && is_zero(c)
}

// Whether both parts are at most `bound` away from zero.
pub fn within(p: Pair, bound: u32) -> bool
    ensures { Tells (PartsWithin bound p) result }
{
    whole::within(p.re, bound) && whole::within(p.im, bound)
}
