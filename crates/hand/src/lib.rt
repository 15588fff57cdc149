// How answers are handed over to C: as a count, or as minus a refusal's number and 32 times its place; the numbers in a lent area.
// One number for an answer or its refusal is the interface for C: so each call ends in a match of a `Result`, by hand, and none in `?`.
#![tactic(auto)]

ghost use Rattle.std.specs.Prelude.{◌≡◌, ◌+◌, ◌≤◌, pos, length, get_or};
ghost use Rattle.refusal.specs.Answers.{refused as refused_with, given, refuse};
ghost use Rattle.pair.specs.Pairs.{pair};
ghost use Rattle.curve.specs.Curves.{points_of};
ghost use Rattle.record.specs.Kinds.{numbers_of};
ghost use Rattle.hand.specs.Promise.{coded as code_of, Hands, IsGiven, IsSource};

use area::{clear, put};
use curve::{Cubic, Curve, Quintic};
use pair::Pair;
use record::{cubic_numbers, quintic_numbers};
use refusal::{Fault, Refusal, number};

// What a curve is built from: a cubic from w0 and w1, a quintic from w0, w1 and w2.
#[derive(Clone, Copy, Debug, PartialEq, Eq)]
pub enum Source {
    Cubic(Pair, Pair),
    Quintic(Pair, Pair, Pair),
}

// A fault as the number that is returned.
pub fn coded(f: Fault) -> i64
    ensures { result ≡ code_of (refused_with f) }
{
    -(i64::from(number(f.refusal)) + 32 * i64::from(f.place))
}

// After a refusal the area is all zero.
pub fn faulted(area: &mut [i64], f: Fault) -> i64
    ensures { Hands (refused_with f) area.old area.new result }
{
    clear(area);
    coded(f)
}

pub fn refused(area: &mut [i64], r: Refusal) -> i64
    ensures { Hands (refuse r 0) area.old area.new result }
{
    faulted(area, r.into())
}

// The values from the area's start, and zeros behind them, if there is room.
pub fn hand(area: &mut [i64], values: &[i64]) -> i64
    ensures { Hands (given values.now) area.old area.new result }
{
    let n = values.len();
    if area.len() < n {
        return refused(area, Refusal::Room);
    }
    put(area, values);
    clear(&mut area[n..]);
    // `as`: a length is below 2^63; `try_from` would have an error that never comes.
    n as i64
}

// A curve's coordinates. By hand an arm for each kind: the arrays are of two lengths.
pub fn hand_curve(out: &mut [i64], curve: Curve) -> i64
    ensures { Hands (given (numbers_of (points_of curve))) out.old out.new result }
{
    match curve {
        Curve::Cubic(c) => hand(out, &cubic_numbers(c)),
        Curve::Quintic(c) => hand(out, &quintic_numbers(c)),
    }
}

// Two numbers of a call as a pair.
fn pair_at(p: &[i64], at: usize) -> Pair
    requires { at + 2 ≤ length p.now }
    ensures { result ≡ pair (get_or p.now at (pos 0)) (get_or p.now (at + 1) (pos 0)) }
{
    Pair {
        re: p[at],
        im: p[at + 1],
    }
}

// The curve that the numbers of a call give, x then y of each point: 8 give a cubic, 12 a quintic, and no other count gives one.
// By hand: the points of a curve are fields with names, which no loop runs over.
pub fn curve_in(p: &[i64]) -> Option<Curve>
    ensures { IsGiven p.now result }
{
    match p.len() {
        8 => Some(Curve::Cubic(Cubic {
            p0: pair_at(p, 0),
            p1: pair_at(p, 2),
            p2: pair_at(p, 4),
            p3: pair_at(p, 6),
        })),
        12 => Some(Curve::Quintic(Quintic {
            p0: pair_at(p, 0),
            p1: pair_at(p, 2),
            p2: pair_at(p, 4),
            p3: pair_at(p, 6),
            p4: pair_at(p, 8),
            p5: pair_at(p, 10),
        })),
        _ => None,
    }
}

// What the numbers of a call give to build from: 4 are a cubic's pairs, 6 a quintic's, and no other count gives any.
pub fn source_in(w: &[i64]) -> Option<Source>
    ensures { IsSource w.now result }
{
    match w.len() {
        4 => Some(Source::Cubic(pair_at(w, 0), pair_at(w, 2))),
        6 => Some(Source::Quintic(pair_at(w, 0), pair_at(w, 2), pair_at(w, 4))),
        _ => None,
    }
}
