// The curves between two ends: all quintics with whole legs from one leg to another over a travel whose leg polynomial is a square, as a list in a
// lent area. A curve is the triple of pairs w0, V, w2: V is twice the middle coefficient, which may be a half.
// The legs a, z and the travel t stay three arguments: `joins` takes them so, and a struct would be filled there only to be taken apart in three functions.
#![tactic(auto)]

ghost use Rattle.std.specs.Prelude.{◌≡◌, [], ◌∷◌, ◌++◌, ◌+◌, ◌≤◌, length, drop};
ghost use Rattle.whole.specs.Number.{Tells, FirstPositive};
ghost use Rattle.join.specs.Promise.{EndsInRange, DeadEnd, Join, Joined, numbers};
ghost use Rattle.join.specs.Steps.{triple, fixed, Even, HalfSteps, Halved, Centred, Ending, MiddleSizes, CentreSizes, EndSizes, WritesTriples};

use area::{clear, refuse};
use curve::COORDINATE_REACH;
use divisor::{over_whole, root};
use pair::{Pair, difference, is_zero, multiple, negative, product, sum, within};
use refusal::Refusal;

// How far a part of the travel may be from 0.
const TRAVEL_REACH: u32 = 40000;

fn in_range(a: Pair, z: Pair, t: Pair) -> bool
    ensures { Tells (EndsInRange a z t) result }
{
    within(a, COORDINATE_REACH) && within(z, COORDINATE_REACH) && within(t, TRAVEL_REACH)
}

fn is_dead_end(a: Pair, z: Pair) -> bool
    ensures { Tells (DeadEnd a z) result }
{
    is_zero(a) || is_zero(z)
}

// Six numbers at the area's start.
fn put(area: &mut [i64], w0: Pair, v: Pair, w2: Pair)
    requires { 6 ≤ length area.old }
    ensures { area.new ≡ numbers (triple w0 v w2 ∷ []) ++ drop 6 area.old }
{
    area[..6].copy_from_slice(&[w0.re, w0.im, v.re, v.im, w2.re, w2.im]);
}

// Whether half of x is whole.
fn is_even(x: Pair) -> bool
    ensures { Tells (Even x) result }
{
    over_whole(x, 2).is_some()
}

// Whether the legs w0 V / 2 and V w2 / 2 are whole. Over a travel the middle leg is whole then too.
fn has_half_steps(w0: Pair, v: Pair, w2: Pair) -> bool
    requires { MiddleSizes w0 v w2 }
    ensures { Tells (HalfSteps (triple w0 v w2)) result }
{
    is_even(product(w0, v)) && is_even(product(v, w2))
}

// The triple whose middle is the half of n, if it has whole legs, written at the area's start; how many numbers that are.
fn put_half(area: &mut [i64], w0: Pair, n: Pair, w2: Pair) -> usize
    requires { MiddleSizes w0 n w2 × (6 ≤ length area.old) }
    ensures { WritesTriples 1 (Halved w0 n w2) area.old area.new result }
{
    let Some(v) = over_whole(n, 2) else {
        return 0;
    };
    if !has_half_steps(w0, v, w2) {
        return 0;
    }
    put(area, w0, v, w2);
    6
}

// The triples with these ends, of which 2 V + 3 (w0 + w2) is a root of d: the one with the lower middle first, written from the area's start; how many
// numbers that are.
fn put_both(area: &mut [i64], w0: Pair, d: Pair, w2: Pair) -> usize
    requires { CentreSizes w0 d w2 × (12 ≤ length area.old) }
    ensures { WritesTriples 2 (Centred w0 d w2) area.old area.new result }
{
    let Some(c) = root(d) else {
        return 0;
    };
    let s = multiple(3, sum(w0, w2));
    let low = difference(negative(c), s);
    let high = difference(c, s);
    let n = put_half(area, w0, low, w2);
    if is_zero(c) {
        return n;
    }
    n + put_half(&mut area[n..], w0, high, w2)
}

// 24 T - 15 (a + z)
fn fixed_part(a: Pair, z: Pair, t: Pair) -> Pair
    requires { EndsInRange a z t }
    ensures { result ≡ fixed a z t }
{
    difference(multiple(24, t), multiple(15, sum(a, z)))
}

// The triples that end in -r, and then those that end in r, written from the area's start; how many numbers that are. One product serves both.
fn put_ends(area: &mut [i64], w0: Pair, f: Pair, r: Pair) -> usize
    requires { EndSizes w0 f r × FirstPositive r.re r.im × (24 ≤ length area.old) }
    ensures { WritesTriples 4 (Ending w0 f r) area.old area.new result }
{
    let p = multiple(10, product(w0, r));
    let low = negative(r);
    let n = put_both(area, w0, difference(f, p), low);
    n + put_both(&mut area[n..], w0, sum(f, p), r)
}

// Every join, written from the area's start; how many numbers that are.
fn put_all(area: &mut [i64], a: Pair, z: Pair, t: Pair) -> usize
    requires { EndsInRange a z t × (DeadEnd a z → ⊥) × (24 ≤ length area.old) }
    ensures { WritesTriples 4 (Join a z t) area.old area.new result }
{
    let Some(w0) = root(a) else {
        return 0;
    };
    let Some(r) = root(z) else {
        return 0;
    };
    put_ends(area, w0, fixed_part(a, z, t), r)
}

// Every curve from leg a to leg z over the travel t: how many there are, and in the area six numbers for each.
pub fn joins(a: Pair, z: Pair, t: Pair, area: &mut [i64]) -> Result<u8, Refusal>
    ensures { Joined a z t area.old area.new result }
{
    if !in_range(a, z, t) {
        return refuse(area, Refusal::Range);
    }
    if is_dead_end(a, z) {
        return refuse(area, Refusal::DeadEnd);
    }
    if area.len() < 24 {
        return refuse(area, Refusal::Room);
    }
    let k = put_all(area, a, z, t);
    clear(&mut area[k..]);
    // `as`: there are at most four; `try_from` would have an error that never comes.
    Ok((k / 6) as u8)
}
