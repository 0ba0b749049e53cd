//! gemv and gemv_cols: columns of a table times coefficients, summed into a column.
ghost use Rattle.std.specs.Prelude.{◌≡◌, ◌-◌, length, OnOk, OnErr};
ghost use Rattle.shape.specs.Refusals.{answer, first_of};
ghost use Rattle.product.specs.Rows.{summed, linear};
ghost use Rattle.product.specs.Tests.{gemv_tests, GemvLawful, gemv_cols_tests, RangeLawful, ProductLawful};
ghost use Rattle.product.specs.Results.{broadcast, Applied, Gemv, GemvCols};

use crate::check::{check_gemv, check_range};
use crate::sums::sum_part;
use scalar::{Scalar, Scale};
use shape::lanes::lane_for;
use shape::{Band, Column, Refusal, TableShape};

/// Every lane of an accepted call: a band's columns times the rows of x, into y.
fn band_lanes<S: Scalar>(
    a: Scale<S>,
    t: Band,
    ts: &[S],
    x: Column,
    xs: &[S],
    b: Scale<S>,
    y: Column,
    ys: &mut [S],
)
    requires { ProductLawful t (length ts.now) x (length xs.now) y (length ys.old) }
    ensures { Applied S.means S.ops (summed S.ops) (S.means a.0) t.of ts.now t.first t.count (broadcast S.means S.ops x xs.now y.of.lanes) (S.means b.0) y ys.old ys.new }
{
    for lane in 0..y.of.lanes {
        let from = t.start(lane_for(lane, t.of.lanes, y.of.lanes));
        let with = x.start(lane_for(lane, x.of.lanes, y.of.lanes));
        let to = y.start(lane);
        sum_part(a, ts, from, xs, with, t.count, b, ys, to, y.of.rows);
    }
}

fn gemv_lanes<S: Scalar>(
    a: Scale<S>,
    t: TableShape,
    ts: &[S],
    x: Column,
    xs: &[S],
    b: Scale<S>,
    y: Column,
    ys: &mut [S],
)
    requires { GemvLawful t (length ts.now) x (length xs.now) y (length ys.old) }
    ensures sums { Gemv S.means S.ops (summed S.ops) (S.means a.0) t ts.now x xs.now (S.means b.0) y ys.old ys.new }
    ensures exact { S.exact → Gemv S.means S.ops (linear S.ops) (S.means a.0) t ts.now x xs.now (S.means b.0) y ys.old ys.new }
{
    band_lanes(a, t.band(), ts, x, xs, b, y, ys);
}

/// The coefficients are a vector of one lane, which every lane of y reads.
fn gemv_cols_lanes<S: Scalar>(
    a: Scale<S>,
    t: TableShape,
    ts: &[S],
    start: usize,
    n: usize,
    x: &[S],
    b: Scale<S>,
    y: Column,
    ys: &mut [S],
)
    requires { RangeLawful t (length ts.now) start n (length x.now) y (length ys.old) }
    ensures sums { GemvCols S.means S.ops (summed S.ops) (S.means a.0) t ts.now start n x.now (S.means b.0) y ys.old ys.new }
    ensures exact { S.exact → GemvCols S.means S.ops (linear S.ops) (S.means a.0) t ts.now start n x.now (S.means b.0) y ys.old ys.new }
{
    let band = Band {
        of: t,
        first: start,
        count: n,
    };
    band_lanes(a, band, ts, Column::vector(n, 1), &x[..n], b, y, ys);
}

/// y becomes a·t·x + b·y in every lane of y; the lanes of t and of x broadcast into them.
///
/// Column 0 of t gives (a·t)·x + b·y, or (a·t)·x alone where b is zero, and each later column adds
/// (a·t)·x, in their order. With no columns y becomes b·y, or zero where b is zero. For an exact
/// scalar all this is a·(Σ t·x) + b·y.
///
/// Refuses 1, 2 and 3 for any operand, 4 for the column of x or y, 7 where t has not y's rows or
/// x not a row for each column of t, and 8 where the lanes of t or x do not go into y's.
pub fn gemv<S: Scalar>(
    a: Scale<S>,
    t: TableShape,
    ts: &[S],
    x: Column,
    xs: &[S],
    b: Scale<S>,
    y: Column,
    ys: &mut [S],
) -> Result<(), Refusal>
    ensures verdict { answer result ≡ first_of (gemv_tests t (length ts.now) x (length xs.now) y (length ys.old)) }
    ensures accepted { OnOk result (Gemv S.means S.ops (summed S.ops) (S.means a.0) t ts.now x xs.now (S.means b.0) y ys.old ys.new) }
    ensures exact { S.exact → OnOk result (Gemv S.means S.ops (linear S.ops) (S.means a.0) t ts.now x xs.now (S.means b.0) y ys.old ys.new) }
    ensures refused { OnErr result (ys.new ≡ ys.old) }
{
    check_gemv(t, ts.len(), x, xs.len(), y, ys.len())?;
    gemv_lanes(a, t, ts, x, xs, b, y, ys);
    Ok(())
}

/// gemv on columns `start` to `end` − 1 of t, at most eight, with coefficients that all lanes
/// share. Coefficients past `end` − `start` are not read.
///
/// Refuses 1, 2 and 3 for t or y, 4 for the range or y's column, 5 for more than eight columns, 6
/// for want of coefficients, 7 where the rows differ and 8 where t's lanes do not go into y's. An
/// empty range is tested like any other.
pub fn gemv_cols<S: Scalar>(
    a: Scale<S>,
    t: TableShape,
    ts: &[S],
    start: usize,
    end: usize,
    x: &[S],
    b: Scale<S>,
    y: Column,
    ys: &mut [S],
) -> Result<(), Refusal>
    ensures verdict { answer result ≡ first_of (gemv_cols_tests t (length ts.now) start end (length x.now) y (length ys.old)) }
    ensures accepted { OnOk result (GemvCols S.means S.ops (summed S.ops) (S.means a.0) t ts.now start (end - start) x.now (S.means b.0) y ys.old ys.new) }
    ensures exact { S.exact → OnOk result (GemvCols S.means S.ops (linear S.ops) (S.means a.0) t ts.now start (end - start) x.now (S.means b.0) y ys.old ys.new) }
    ensures refused { OnErr result (ys.new ≡ ys.old) }
{
    let (source, lanes) = (t.lanes, y.of.lanes);
    check_range(t, ts.len(), start, end, x.len(), y, ys.len(), source, lanes)?;
    gemv_cols_lanes(a, t, ts, start, end - start, x, b, y, ys);
    Ok(())
}
