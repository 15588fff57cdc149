// The calls on curves, and what each answers. What a call returned is looked at in each, as C code does: they are asked through the C interface,
// and each lends an area of another size, or numbers of its own. `as`, since From doesn't convert a u64 to a usize.
use crate::answers::{say_area, say_points, say_refused};
use std::io;
use std::io::Write;

pub(crate) fn recognise<W: Write>(to: &mut W, curve: &[i64]) -> io::Result<()> {
    let mut out = [0i64; 15];
    let returned = curve_calls::recognise(curve, &mut out);
    if returned < 0 {
        return say_refused(to, returned);
    }
    let [
        verdict,
        c,
        q0,
        q1,
        q2,
        q3,
        q4,
        k0,
        k1,
        u0,
        v0,
        u1,
        v1,
        u2,
        v2,
    ] = out;
    match verdict {
        0 => write!(to, "still"),
        1 => write!(to, "no"),
        2 => write!(to, "ph c={c} q={q0} {q1} {q2} {q3} {q4}"),
        _ => {
            write!(to, "pre c={c} q={q0} {q1} {q2} {q3} {q4} kappa=({k0},{k1})")?;
            write!(to, " w=({u0},{v0}) ({u1},{v1}) ({u2},{v2})")
        }
    }
}

pub(crate) fn length<W: Write>(to: &mut W, curve: &[i64]) -> io::Result<()> {
    let mut out = [0i64; 3];
    let returned = curve_calls::length(curve, &mut out);
    if returned < 0 {
        return say_refused(to, returned);
    }
    let [c, over, under] = out;
    write!(to, "c={c} len={over}/{under}")
}

pub(crate) fn inflections<W: Write>(to: &mut W, curve: &[i64]) -> io::Result<()> {
    let mut out = [0i64; 5];
    let returned = curve_calls::inflections(curve, &mut out);
    if returned < 0 {
        return say_refused(to, returned);
    }
    let [t0, t1, t2, count, straight] = out;
    write!(to, "turning {t0} {t1} {t2} count {count}")?;
    if straight != 0 {
        write!(to, " straight")?;
    }
    Ok(())
}

// Four points or six, as the call returned.
pub(crate) fn say_curve<W: Write>(to: &mut W, out: &[i64; 12], returned: i64) -> io::Result<()> {
    say_points(to, if returned == 8 { &out[..8] } else { &out[..] })
}

pub(crate) fn build<W: Write>(to: &mut W, x: i64, y: i64, w: &[i64]) -> io::Result<()> {
    let mut out = [0i64; 12];
    let returned = curve_calls::build(x, y, w, &mut out);
    if returned < 0 {
        say_refused(to, returned)
    } else {
        say_curve(to, &out, returned)
    }
}

// An area to lend: a hundred numbers at most, each 7.
fn lend(space: &mut [i64; 100], room: i64) -> &mut [i64] {
    let lent = room.unsigned_abs().min(100) as usize;
    &mut space[..lent]
}

pub(crate) fn offset<W: Write>(to: &mut W, curve: &[i64], h: i64, room: i64) -> io::Result<()> {
    let mut space = [7i64; 100];
    let area = lend(&mut space, room);
    let returned = curve_calls::offset(curve, h, area);
    if returned < 0 {
        say_refused(to, returned)?;
        say_area(to, area, 0)
    } else {
        write!(to, "written")?;
        say_area(to, area, returned.unsigned_abs() as usize)
    }
}

pub(crate) fn joins<W: Write>(to: &mut W, given: [i64; 6], room: i64) -> io::Result<()> {
    let mut space = [7i64; 100];
    let area = lend(&mut space, room);
    let [ax, ay, zx, zy, tx, ty] = given;
    let returned = curve_calls::joins(ax, ay, zx, zy, tx, ty, area);
    if returned < 0 {
        say_refused(to, returned)?;
        return say_area(to, area, 0);
    }
    write!(to, "{returned} joins")?;
    if returned > 0 {
        write!(to, ":")?;
    }
    // Six numbers a join, and four joins at most.
    let joins = returned.unsigned_abs().min(4) as usize;
    say_area(to, area, 6 * joins)
}
