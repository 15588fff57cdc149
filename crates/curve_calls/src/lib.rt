// The calls on curves for C, over numbers: `yard` exports them, and include/yard.h has a comment for each.
// The numbers of a curve are x then y of each point.
#![tactic(auto)]

mod numbers;

ghost use Rattle.pair.specs.Pairs.{pair};
ghost use Rattle.curve_calls.specs.Promise.{CurveCall, RecogniseCall, LengthCall, InflectionCall, OffsetCall, BuildCall, JoinCall};

use build::{build_cubic, build_quintic};
use curve::Curve;
use hand::{Source, curve_in, refused, source_in};
use numbers::{Answer, count, hand_answer};
use pair::Pair;
use refusal::Refusal;

// What is asked of the curve that the numbers of a call give.
fn on_curve<A: Answer, F: FnOnce(Curve) -> Result<A, Refusal>>(
    p: &[i64],
    out: &mut [i64],
    ask: F,
) -> i64
    requires { F.IsAlwaysCallable ask }
    ensures { CurveCall (F.post ask) A.numbers p.now out.old out.new result }
{
    match curve_in(p) {
        Some(curve) => hand_answer(out, ask(curve)),
        None => refused(out, Refusal::Length),
    }
}

pub fn recognise(p: &[i64], out: &mut [i64]) -> i64
    ensures { RecogniseCall p.now out.old out.new result }
{
    on_curve(p, out, verdict::recognise)
}

pub fn length(p: &[i64], out: &mut [i64]) -> i64
    ensures { LengthCall p.now out.old out.new result }
{
    on_curve(p, out, measure::length)
}

pub fn inflections(p: &[i64], out: &mut [i64]) -> i64
    ensures { InflectionCall p.now out.old out.new result }
{
    on_curve(p, out, measure::inflections)
}

// The count of numbers is tested by hand: the library fills the area itself, so there is no answer that `on_curve` could hand over.
pub fn offset(p: &[i64], h: i64, out: &mut [i64]) -> i64
    ensures { OffsetCall p.now h out.old out.new result }
{
    let Some(curve) = curve_in(p) else {
        return refused(out, Refusal::Length);
    };
    count(offset::offset(curve, h, out))
}

pub fn build(x: i64, y: i64, w: &[i64], out: &mut [i64]) -> i64
    ensures { BuildCall (pair x y) w.now out.old out.new result }
{
    let p0 = Pair { re: x, im: y };
    match source_in(w) {
        Some(Source::Cubic(w0, w1)) => hand_answer(out, build_cubic(p0, w0, w1)),
        Some(Source::Quintic(w0, w1, w2)) => hand_answer(out, build_quintic(p0, w0, w1, w2)),
        None => refused(out, Refusal::Length),
    }
}

pub fn joins(ax: i64, ay: i64, zx: i64, zy: i64, tx: i64, ty: i64, out: &mut [i64]) -> i64
    ensures { JoinCall (pair ax ay) (pair zx zy) (pair tx ty) out.old out.new result }
{
    let a = Pair { re: ax, im: ay };
    let z = Pair { re: zx, im: zy };
    let t = Pair { re: tx, im: ty };
    count(join::joins(a, z, t, out))
}
