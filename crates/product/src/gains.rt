//! The inner loops of ger_cols, on runs of memory: nothing here knows of shapes or lanes.
ghost use Rattle.std.specs.Prelude.{◌≡◌, ℕ, ◌+◌, ◌*◌, ◌<◌, ◌≤◌, length, slice_index_or};
ghost use Rattle.scalar.specs.Sums.{at};
ghost use Rattle.shape.specs.Changes.{RunChanged};
ghost use Rattle.product.specs.Results.{in_block};

use crate::runs::rewrite;
use scalar::{Scalar, Scale};

/// The column of y that starts at place `to` gains c·p.
fn gain_column<S: Scalar>(c: S, p: &[S], y: &mut [S], to: usize)
    requires { to + length p.now ≤ length y.old }
    ensures { RunChanged to (length p.now) (λ i v. S.means v ≡ S.ops.plus (at S.means S.ops y.old (to + i)) (S.ops.times (S.means c) (at S.means S.ops p.now i))) y.old y.new }
{
    rewrite(&mut y[to..to + p.len()], |i, v| v.add(c.mul(p[i])));
}

/// Column l of y, each as long as p, gains (a·x_l)·p.
fn gain_columns<S: Scalar>(a: Scale<S>, x: &[S], p: &[S], y: &mut [S])
    requires { length y.old ≡ length x.now * length p.now }
    ensures { (k : ℕ) (d : S) → k < length y.old → in_block S.means (length p.now) (λ l i. S.ops.plus (at S.means S.ops y.old (l * length p.now + i)) (S.ops.times (S.ops.times (S.means a.0) (at S.means S.ops x.now l)) (at S.means S.ops p.now i))) k (slice_index_or y.new k d) }
{
    for (l, c) in x.iter().enumerate() {
        gain_column(a.0.mul(*c), p, y, l * p.len());
    }
}

/// The same on parts of memory: the run of p from place `from` on, of `rows` rows, and the
/// columns from place `to` on.
pub(crate) fn gain_part<S: Scalar>(
    a: Scale<S>,
    x: &[S],
    ps: &[S],
    from: usize,
    rows: usize,
    ys: &mut [S],
    to: usize,
)
    requires source { from + rows ≤ length ps.now }
    requires target { to + length x.now * rows ≤ length ys.old }
    ensures { RunChanged to (length x.now * rows) (in_block S.means rows (λ l i. S.ops.plus (at S.means S.ops ys.old (to + (l * rows + i))) (S.ops.times (S.ops.times (S.means a.0) (at S.means S.ops x.now l)) (at S.means S.ops ps.now (from + i))))) ys.old ys.new }
{
    gain_columns(
        a,
        x,
        &ps[from..from + rows],
        &mut ys[to..to + x.len() * rows],
    );
}
