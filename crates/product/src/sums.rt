//! The inner loops of gemv and gemv_cols, on runs of memory: nothing here knows of shapes or
//! lanes. What does not depend on the row, as the test of b, is done before a loop.
ghost use Rattle.std.specs.Prelude.{◌≡◌, ◌+◌, ◌*◌, ◌<◌, ◌≤◌, length, if◌then◌else◌};
ghost use Rattle.scalar.specs.Sums.{at, sum_from};
ghost use Rattle.shape.specs.Changes.{RunChanged};
ghost use Rattle.vector.specs.Rows.{blend};
ghost use Rattle.product.specs.Rows.{summed};
ghost use Rattle.product.specs.Results.{Run, run_row};

use crate::runs::rewrite;
use scalar::{Scalar, Scale};

/// What no columns give: b·y, or zero where b is zero.
fn no_columns<S: Scalar>(b: Scale<S>, y: &mut [S])
    ensures { Run S.means (λ i. (if S.ops.is_zero (S.means b.0) then S.ops.zero else S.ops.times (S.means b.0) (at S.means S.ops y.old i))) y.new }
{
    if b.0.is_zero() {
        rewrite(y, |_, _| S::zero());
    } else {
        rewrite(y, |_, v| b.0.mul(v));
    }
}

/// The first column: (a·d)·x + b·y, and (a·d)·x alone where b is zero.
fn first_column<S: Scalar>(a: Scale<S>, d: &[S], x: S, b: Scale<S>, y: &mut [S])
    requires { length d.now ≡ length y.old }
    ensures { Run S.means (λ i. blend S.ops (S.ops.times (S.means a.0) (at S.means S.ops d.now i)) (S.means x) (S.means b.0) (at S.means S.ops y.old i)) y.new }
{
    if b.0.is_zero() {
        rewrite(y, |i, _| a.0.mul(d[i]).mul(x));
    } else {
        rewrite(y, |i, v| a.0.mul(d[i]).mul(x).add(b.0.mul(v)));
    }
}

/// y gains the column that starts at place `from`.
fn add_column<S: Scalar>(a: Scale<S>, d: &[S], from: usize, x: S, y: &mut [S])
    requires { from + length y.old ≤ length d.now }
    ensures { Run S.means (λ i. S.ops.plus (at S.means S.ops y.old i) (S.ops.times (S.ops.times (S.means a.0) (at S.means S.ops d.now (from + i))) (S.means x))) y.new }
{
    let column = &d[from..from + y.len()];
    rewrite(y, |i, v| v.add(a.0.mul(column[i]).mul(x)));
}

/// y gains d's columns, each as long as y, times a and the coefficients x.
fn add_columns<S: Scalar>(a: Scale<S>, d: &[S], x: &[S], y: &mut [S])
    requires { length x.now * length y.old ≤ length d.now }
    ensures { Run S.means (λ i. sum_from S.ops (at S.means S.ops y.old i) (λ l. S.ops.times (S.ops.times (S.means a.0) (run_row S.means S.ops d.now (length y.old) i l)) (at S.means S.ops x.now l)) (length x.now)) y.new }
{
    for (l, c) in x.iter().enumerate() {
        add_column(a, d, l * y.len(), *c, y);
    }
}

/// y becomes the sum of d's columns, each as long as y, times a and the coefficients x, onto b·y.
fn sum_columns<S: Scalar>(a: Scale<S>, d: &[S], x: &[S], b: Scale<S>, y: &mut [S])
    requires { length x.now * length y.old ≤ length d.now }
    ensures { Run S.means (λ i. summed S.ops (run_row S.means S.ops d.now (length y.old) i) 0 (length x.now) (S.means a.0) (S.means b.0) (λ l. at S.means S.ops x.now l) (at S.means S.ops y.old i)) y.new }
{
    match x.split_first() {
        None => no_columns(b, y),
        Some((c, later)) => {
            let (first, columns) = d.split_at(y.len());
            first_column(a, first, *c, b, y);
            add_columns(a, columns, later, y);
        }
    }
}

/// The same on parts of memory: `count` columns of `rows` rows from place `from` on, coefficients
/// from place `with` on, and the run of y from place `to` on.
pub(crate) fn sum_part<S: Scalar>(
    a: Scale<S>,
    ds: &[S],
    from: usize,
    xs: &[S],
    with: usize,
    count: usize,
    b: Scale<S>,
    ys: &mut [S],
    to: usize,
    rows: usize,
)
    requires table { from + count * rows ≤ length ds.now }
    requires source { with + count ≤ length xs.now }
    requires target { to + rows ≤ length ys.old }
    ensures { RunChanged to rows (λ i v. S.means v ≡ summed S.ops (λ l. at S.means S.ops ds.now (from + (l * rows + i))) 0 count (S.means a.0) (S.means b.0) (λ l. at S.means S.ops xs.now (with + l)) (at S.means S.ops ys.old (to + i))) ys.old ys.new }
{
    sum_columns(
        a,
        &ds[from..from + count * rows],
        &xs[with..with + count],
        b,
        &mut ys[to..to + rows],
    );
}
