// The Bernstein coefficients from the weighted rows, written point by point.
ghost use Rattle.std.specs.Prelude.{◌≡◌, length};
ghost use Rattle.whole.specs.Number.{wholes, Within};
ghost use Rattle.whole.specs.Coefficients.{at};
ghost use Rattle.root.specs.Search.{Each};
ghost use Rattle.bernstein.specs.Binomials.{binomial_sum};
ghost use Rattle.offset.specs.Promise.{point_numbers};
ghost use Rattle.offset.specs.Steps.{IsNext, Putting};

use crate::{Nonic, Rows};

// Each coefficient and the one above it, added: by Pascal's rule the first of the k-th row is the k-th sum with binomial coefficients.
fn step(e: &mut Nonic)
    requires { Each wholes (Within 4500000000000000000) e.old }
    ensures { IsNext e.old e.new }
{
    // By hand: no iterator lends a coefficient to be written beside the next to be read.
    for k in 0..9 {
        e[k] += e[k + 1];
    }
}

// Writes W, X and Y of one point after the other over the whole of the area.
pub(crate) fn put_points(area: &mut [i64], count: usize, rows: Rows)
    requires { Putting (length area.old) count rows }
    ensures { area.new ≡ point_numbers count (binomial_sum (at wholes rows.w)) (binomial_sum (at wholes rows.x)) (binomial_sum (at wholes rows.y)) }
{
    let Rows {
        mut w,
        mut x,
        mut y,
    } = rows;
    // By hand: of what `chunks_exact_mut` lends a proof knows the length alone.
    for k in 0..count {
        area[3 * k..3 * k + 3].copy_from_slice(&[w[0], x[0], y[0]]);
        step(&mut w);
        step(&mut x);
        step(&mut y);
    }
}
