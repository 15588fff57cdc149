// Whole numbers: exact and nearest quotients, square roots, sizes, and common divisors.
#![tactic(auto)]

ghost use Rattle.std.specs.Prelude.{◌≡◌, ◌∷◌, [], ◌≢◌, ◌%◌, pos, nat_abs, ◌*ℤ◌, ◌<ℤ◌};
ghost use Rattle.whole.specs.Number.{wholes, Within, Tells, norm_size};
ghost use Rattle.whole.specs.Coefficients.{Greatest};
ghost use Rattle.whole.specs.Promise.{Divisible, IsQuotient, Shares, Nearest, IsRoot, EndsAsSquare, IsExactRoot};
ghost use Rattle.whole.specs.Steps.{OddPart, Guess};

// The whole root of a number, and what its square leaves over.
#[derive(Clone, Copy, Debug, PartialEq, Eq)]
pub struct Root {
    pub root: u64,
    pub rest: u64,
}

// n / d where d divides n, and nothing where the quotient is a fraction.
pub fn quotient(n: i64, d: i64) -> Option<i64>
    requires { Divisible n d }
    ensures { IsQuotient n d result }
{
    if n % d == 0 { Some(n / d) } else { None }
}

// n / d, which is whole.
pub fn share(n: i64, d: i64) -> i64
    requires { Shares n d }
    ensures { (d *ℤ result ≡ n) × Within norm_size result }
{
    n / d
}

// The whole number nearest to n / d.
pub fn nearest(n: i64, d: i64) -> i64
    requires { pos 0 <ℤ d }
    ensures { Nearest n d result }
{
    let q = n / d;
    let r = n % d;
    let half = d / 2;
    if half < r {
        return q + 1;
    }
    if r <= half - d {
        return q - 1;
    }
    q
}

// The mean of a power of two near the root of n and of n over it: a step of Newton's without a division.
fn guess(n: u64) -> u64
    requires { n ≢ 0 }
    ensures { Guess n result }
{
    let k = (64 - n.leading_zeros()) / 2;
    ((1u64 << k) + (n >> k)) / 2
}

// The root by Newton's steps, each from above. By hand: the library's `isqrt` halves a range 32 times, and takes four to five times as long.
pub fn square_root(n: u64) -> Root
    ensures { IsRoot n result }
{
    if n == 0 {
        return Root { root: 0, rest: 0 };
    }
    let mut r = guess(n);
    while r * r > n {
        r = (r + n / r) / 2;
    }
    Root {
        root: r,
        rest: n - r * r,
    }
}

// Whether n ends as squares do, in its last six binary digits: the digits of the number stand for the remainders by 64. Four of five
// numbers that are no squares do not, and need no root.
pub fn ends_as_a_square(n: u64) -> bool
    ensures { Tells (EndsAsSquare n) result }
{
    (144680414395695635u64 >> (n % 64)) % 2 == 1
}

// The root of n, if n is a square. Most numbers that are none are refused by their end.
pub fn exact_root(n: u64) -> Option<u64>
    ensures { IsExactRoot n result }
{
    if !ends_as_a_square(n) {
        return None;
    }
    let Root { root, rest } = square_root(n);
    if rest == 0 { Some(root) } else { None }
}

// How far x is from zero: the library's `unsigned_abs` by a name of its own, which stays with its promise since both are public.
pub fn size(x: i64) -> u64
    ensures { result ≡ nat_abs x }
{
    x.unsigned_abs()
}

// Whether x is at most `bound` away from zero.
pub fn within(x: i64, bound: u32) -> bool
    ensures { Tells (Within bound x) result }
{
    let most = i64::from(bound);
    -most <= x && x <= most
}

// n with its factors of 2 taken out.
fn odd_part(n: u64) -> u64
    requires { n ≢ 0 }
    ensures { OddPart n result }
{
    n >> n.trailing_zeros()
}

// The greatest common divisor of two odd numbers. Their difference is even, and its factors of 2 do not matter.
fn odd_common(a: u64, b: u64) -> u64
    requires { (a % 2 ≡ 1) × (b % 2 ≡ 1) }
    ensures { Greatest wholes (pos a ∷ pos b ∷ []) (pos result) }
{
    let mut x = a;
    let mut y = b;
    while x != y {
        if x < y {
            y = odd_part(y - x);
        } else {
            x = odd_part(x - y);
        }
    }
    x
}

// The greatest common divisor by shifts. The smaller power of 2 is common to both.
fn common(a: u64, b: u64) -> u64
    ensures { Greatest wholes (pos a ∷ pos b ∷ []) (pos result) }
{
    if a == 0 {
        return b;
    }
    if b == 0 {
        return a;
    }
    let i = a.trailing_zeros();
    let j = b.trailing_zeros();
    odd_common(a >> i, b >> j) << i.min(j)
}

// The same, where b is mostly much smaller: one remainder first, which is often 0.
fn common_with(a: u64, b: u64) -> u64
    ensures { Greatest wholes (pos a ∷ pos b ∷ []) (pos result) }
{
    if b == 0 {
        return a;
    }
    common(a % b, b)
}

// The greatest common divisor of a list, 0 where there is none but zeros. At 1 the rest cannot matter.
pub fn gcd_all(numbers: &[i64]) -> u64
    ensures { Greatest wholes numbers.now (pos result) }
{
    let mut g = 0;
    for x in numbers {
        if g == 1 {
            break;
        }
        g = common_with(size(*x), g);
    }
    g
}
