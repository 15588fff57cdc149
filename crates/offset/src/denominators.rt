// W = m q of a curve that has an offset.
ghost use Rattle.std.specs.Prelude.{◌≡◌, ◌^◌};
ghost use Rattle.whole.specs.Number.{wholes, Within};
ghost use Rattle.poly.specs.Polynomials.{scaled};
ghost use Rattle.root.specs.Promise.{quartic, Small};
ghost use Rattle.root.specs.Search.{Each};
ghost use Rattle.offset.specs.Steps.{RootAsked, IsRooted, Denominated};

use curve::{COORDINATE_REACH, Curve};
use refusal::Refusal;
use root::Quartic;
use verdict::{Square, preimage_of};
use whole::{square_root, within};

// m q. By hand: root's `Quartic` has its coefficients as named fields, which no loop runs over.
fn multiple(m: i64, q: Quartic) -> Quartic
    requires { Within (2 ^ 32) m × Each wholes Small (quartic q) }
    ensures { quartic result ≡ scaled wholes m (quartic q) }
{
    Quartic {
        q0: m * q.q0,
        q1: m * q.q1,
        q2: m * q.q2,
        q3: m * q.q3,
        q4: m * q.q4,
    }
}

// m q where c is m^2, which is positive. `as`: a root is below 2^32; `try_from` would have an error that never comes.
fn rooted(s: Square) -> Result<Quartic, Refusal>
    requires { RootAsked s }
    ensures { IsRooted s result }
{
    let m = square_root(s.c.unsigned_abs());
    if m.rest != 0 {
        return Err(Refusal::Root);
    }
    Ok(multiple(m.root as i64, s.q))
}

// W, or the first cause why there is no offset, whatever the area.
pub(crate) fn denominator_of(curve: Curve, h: i64) -> Result<Quartic, Refusal>
    ensures { Denominated curve h result }
{
    if !within(h, COORDINATE_REACH) {
        return Err(Refusal::Range);
    }
    rooted(preimage_of(curve)?.square)
}
