//! The transpose of the update of a table of backward differences.
ghost use Rattle.std.specs.Prelude.{◌≡◌, ◌+◌, length, OnOk, OnErr};
ghost use Rattle.shape.specs.Refusals.{answer, first_of};
ghost use Rattle.differences.specs.Transposes.{transpose_tests, TransposeLawful, Transposed, Cumulative};

use crate::matrix::{Entries, Matrix};
use crate::multiply::multiply_lanes;
use crate::total::sum_columns;
use crate::update::no_order;
use scalar::Scalar;
use shape::check::no_column;
use shape::lanes::no_broadcast;
use shape::{Column, Refusal, TableShape, refuse_shapes};

/// The tests of a transpose, and what acceptance tells.
fn check_transpose(
    t: TableShape,
    len: usize,
    order: usize,
    d: Column,
    d_len: usize,
    work: usize,
) -> Result<(), Refusal>
    ensures verdict { answer result ≡ first_of (transpose_tests t len order d d_len work) }
    ensures lawful { OnOk result (TransposeLawful t len order d d_len work) }
{
    refuse_shapes!(t, len; d.of, d_len);
    if work < 8 {
        return Err(Refusal::Memory);
    }
    if no_order(t, order) || no_column(d) {
        return Err(Refusal::NoColumn);
    }
    if order > 5 {
        return Err(Refusal::TooMany);
    }
    if t.rows != d.of.rows {
        return Err(Refusal::Counts);
    }
    if no_broadcast(t.lanes, d.of.lanes) {
        return Err(Refusal::Lanes);
    }
    Ok(())
}

/// Every lane of an accepted call: the sum first, since the product writes over its columns.
fn transpose_lanes<S: Scalar>(
    t: TableShape,
    ts: &mut [S],
    order: usize,
    d: Column,
    ds: &mut [S],
    work: &mut [S],
)
    requires { TransposeLawful t (length ts.old) order d (length ds.old) (length work.old) }
    ensures columns { Transposed S.means S.ops t order d ts.old ts.new ds.old ds.new }
    ensures sums { S.exact → Cumulative S.means S.ops t order d ts.old ts.new ds.new }
{
    sum_columns(t, ts, order, d, ds, work);
    let m = Matrix {
        size: order + 3,
        entries: Entries::OfTranspose(order),
    };
    multiply_lanes(t, ts, m, &[], work);
}

/// The transpose of `update_backward_diff`: d becomes the sum of columns 0 to order + 2, and those
/// columns are multiplied by the constant matrix t of the order, at most 5. For an exact scalar
/// column j up to the order becomes the sum of columns 0 to j, the next the negated last, and the
/// last zero.
pub fn update_backward_diff_transpose<S: Scalar>(
    t: TableShape,
    ts: &mut [S],
    order: usize,
    d: Column,
    ds: &mut [S],
    work: &mut [S],
) -> Result<(), Refusal>
    ensures verdict { answer result ≡ first_of (transpose_tests t (length ts.old) order d (length ds.old) (length work.old)) }
    ensures accepted { OnOk result (Transposed S.means S.ops t order d ts.old ts.new ds.old ds.new) }
    ensures exact { S.exact → OnOk result (Cumulative S.means S.ops t order d ts.old ts.new ds.new) }
    ensures refused { OnErr result ((ts.new ≡ ts.old) × (ds.new ≡ ds.old) × (work.new ≡ work.old)) }
{
    check_transpose(t, ts.len(), order, d, ds.len(), work.len())?;
    transpose_lanes(t, ts, order, d, ds, work);
    Ok(())
}
