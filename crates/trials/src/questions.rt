// What is asked: a call with the numbers that it takes.
use crate::calls::Call;

// A sheet is given by its runs.
#[derive(Clone, Copy, Debug, PartialEq, Eq)]
pub(crate) enum Question<'a> {
    Recognise(&'a [i64]),
    Length(&'a [i64]),
    Inflections(&'a [i64]),
    // A curve, a distance and the room.
    Offset(&'a [i64], i64, i64),
    // A point, and the pairs of w.
    Build(i64, i64, &'a [i64]),
    // Two legs and a travel, and the room.
    Joins([i64; 6], i64),
    Check(&'a [i64]),
    Erase(&'a [i64]),
    // The mission, and here and there the curve's number.
    Start(u16, &'a [i64]),
    Read(u16, u64, &'a [i64]),
    Find(u16, u64, &'a [i64]),
    // A curve's points, and the sheet.
    Append(&'a [i64], &'a [i64]),
}

// The points of a curve.
fn curve(n: &[i64]) -> Option<&[i64]> {
    if matches!(n.len(), 8 | 12) {
        Some(n)
    } else {
        None
    }
}

// The runs of a sheet, two numbers each.
fn runs(n: &[i64]) -> Option<&[i64]> {
    if n.len() % 2 == 0 { Some(n) } else { None }
}

// A curve and a distance. The room is the last number; without one it is what the longest answer takes.
fn offset(n: &[i64]) -> Option<Question<'_>> {
    match n.len() {
        9 => Some(Question::Offset(&n[..8], n[8], 18)),
        10 => Some(Question::Offset(&n[..8], n[8], n[9])),
        13 => Some(Question::Offset(&n[..12], n[12], 30)),
        14 => Some(Question::Offset(&n[..12], n[12], n[13])),
        _ => None,
    }
}

fn joins(n: &[i64]) -> Option<Question<'_>> {
    match *n {
        [ax, ay, zx, zy, tx, ty] => Some(Question::Joins([ax, ay, zx, zy, tx, ty], 24)),
        [ax, ay, zx, zy, tx, ty, room] => Some(Question::Joins([ax, ay, zx, zy, tx, ty], room)),
        _ => None,
    }
}

fn build(n: &[i64]) -> Option<Question<'_>> {
    match n {
        [x, y, w @ ..] if matches!(w.len(), 4 | 6) => Some(Question::Build(*x, *y, w)),
        _ => None,
    }
}

// A mission and what stands behind it.
fn mission(n: &[i64]) -> Option<(u16, &[i64])> {
    let (mission, rest) = n.split_first()?;
    Some((u16::try_from(*mission).ok()?, rest))
}

// A mission, a curve's number and the runs.
fn curve_of(n: &[i64]) -> Option<(u16, u64, &[i64])> {
    let (mission, rest) = mission(n)?;
    let (number, rest) = rest.split_first()?;
    Some((mission, u64::try_from(*number).ok()?, runs(rest)?))
}

// How many coordinates, these, and the runs.
fn append(n: &[i64]) -> Option<Question<'_>> {
    match n {
        [8, rest @ ..] if rest.len() >= 8 => Some(Question::Append(&rest[..8], runs(&rest[8..])?)),
        [12, rest @ ..] if rest.len() >= 12 => Some(Question::Append(
            &rest[..12],
            runs(&rest[12..])?,
        )),
        _ => None,
    }
}

impl Call {
    // The call with these numbers, if it takes them. A root is asked and parts are given by other means.
    pub(crate) fn with(self, n: &[i64]) -> Option<Question<'_>> {
        match self {
            Call::Recognise => Some(Question::Recognise(curve(n)?)),
            Call::Length => Some(Question::Length(curve(n)?)),
            Call::Inflections => Some(Question::Inflections(curve(n)?)),
            Call::Offset => offset(n),
            Call::Build => build(n),
            Call::Joins => joins(n),
            Call::Check | Call::Parts => Some(Question::Check(runs(n)?)),
            Call::Erase => Some(Question::Erase(runs(n)?)),
            Call::Append => append(n),
            Call::Start => {
                let (mission, rest) = mission(n)?;
                Some(Question::Start(mission, runs(rest)?))
            }
            Call::Read => {
                let (mission, number, runs) = curve_of(n)?;
                Some(Question::Read(mission, number, runs))
            }
            Call::Find => {
                let (mission, number, runs) = curve_of(n)?;
                Some(Question::Find(mission, number, runs))
            }
            Call::Root => None,
        }
    }
}

impl<'a> Question<'a> {
    // The runs of its sheet: none where it has no sheet.
    pub(crate) fn runs(self) -> &'a [i64] {
        match self {
            Question::Check(runs)
            | Question::Erase(runs)
            | Question::Start(_, runs)
            | Question::Read(_, _, runs)
            | Question::Find(_, _, runs)
            | Question::Append(_, runs) => runs,
            _ => &[],
        }
    }
}
