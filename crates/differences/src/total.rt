//! The sum of a table's first columns into a column d.
ghost use Rattle.std.specs.Prelude.{◌≡◌, ℕ, ◌+◌, ◌<◌, length, slice_index_or};
ghost use Rattle.differences.specs.Transposes.{TransposeLawful, Totalled};

use product::gemv_cols;
use scalar::{Scalar, Scale};
use shape::{Column, TableShape};

fn fill_ones<S: Scalar>(work: &mut [S])
    ensures { (i : ℕ) (d : S) → i < length work.old → S.means (slice_index_or work.new i d) ≡ S.ops.one }
{
    for c in work.iter_mut() {
        *c = S::one();
    }
}

/// d becomes the sum of columns 0 to order + 2, by gemv_cols. The coefficients, all ones, lie in
/// the work memory. Lawful operands are not refused, so the answer tells nothing.
pub(crate) fn sum_columns<S: Scalar>(
    t: TableShape,
    ts: &[S],
    order: usize,
    d: Column,
    ds: &mut [S],
    work: &mut [S],
)
    requires { TransposeLawful t (length ts.now) order d (length ds.old) (length work.old) }
    ensures { Totalled S.means S.ops t ts.now (order + 3) d ds.old ds.new }
{
    fill_ones(work);
    let one = Scale(S::one());
    let zero = Scale(S::zero());
    let _ = gemv_cols(one, t, ts, 0, order + 3, work, zero, d, ds);
}
