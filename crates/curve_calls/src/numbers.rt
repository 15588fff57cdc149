// The library's answers handed over as numbers; for the answers whose area the library fills itself, how many there are.
ghost use Rattle.std.specs.Prelude.{◌≡◌, List, ℤ};
ghost use Rattle.refusal.specs.Answers.{answer_of, given, with_given};
ghost use Rattle.hand.specs.Promise.{coded as code_of, Hands};
ghost use Rattle.curve_calls.specs.Promise.{verdict_numbers, length_numbers, inflection_numbers, built_numbers};

use curve::Curve;
use hand::{coded, hand, hand_curve, refused};
use measure::Turning;
use measure::counting::Inflections;
use measure::lengths::Length;
use refusal::Refusal;
use verdict::{Preimage, Quadratic, Square, Verdict};

// What is handed over as numbers.
pub(crate) trait Answer {
    ghost numbers: { Self → List ℤ };

    fn handed(self, out: &mut [i64]) -> i64
        ensures { Hands (given (numbers self)) out.old out.new result };
}

// Of every verdict there are 15 numbers: what it lacks is 0.
fn numbers(v: Verdict) -> [i64; 15]
    ensures { result ≡ verdict_numbers v }
{
    match v {
        Verdict::Still => [0; 15],
        Verdict::No => [1, 0, 0, 0, 0, 0, 0, 0, 0, 0, 0, 0, 0, 0, 0],
        Verdict::Ph(Square { c, q }) => [
            2, c, q.q0, q.q1, q.q2, q.q3, q.q4, 0, 0, 0, 0, 0, 0, 0, 0,
        ],
        Verdict::Pre(
            Preimage {
                kappa,
                w: Quadratic { b0, b1, b2 },
                square: Square { c, q },
            },
        ) => [
            3, c, q.q0, q.q1, q.q2, q.q3, q.q4, kappa.re, kappa.im, b0.re, b0.im, b1.re, b1.im,
            b2.re, b2.im,
        ],
    }
}

impl Answer for Verdict {
    ghost numbers = { verdict_numbers };

    fn handed(self, out: &mut [i64]) -> i64 {
        hand(out, &numbers(self))
    }
}

impl Answer for Length {
    ghost numbers = { length_numbers };

    fn handed(self, out: &mut [i64]) -> i64 {
        hand(out, &[self.c, self.a, self.b])
    }
}

impl Answer for Inflections {
    ghost numbers = { inflection_numbers };

    fn handed(self, out: &mut [i64]) -> i64 {
        let Inflections {
            turning: Turning { t0, t1, t2 },
            count,
            straight,
        } = self;
        hand(out, &[t0, t1, t2, i64::from(count), i64::from(straight)])
    }
}

impl Answer for Curve {
    ghost numbers = { built_numbers };

    fn handed(self, out: &mut [i64]) -> i64 {
        hand_curve(out, self)
    }
}

// An answer of the library, or its refusal.
pub(crate) fn hand_answer<A: Answer>(out: &mut [i64], r: Result<A, Refusal>) -> i64
    ensures { Hands (with_given A.numbers (answer_of r)) out.old out.new result }
{
    match r {
        Ok(a) => a.handed(out),
        Err(r) => refused(out, r),
    }
}

// How many the library wrote, or its refusal.
pub(crate) fn count(r: Result<u8, Refusal>) -> i64
    ensures { result ≡ code_of (answer_of r) }
{
    match r {
        Ok(n) => i64::from(n),
        Err(r) => coded(r.into()),
    }
}
