//! ger_cols: columns of a table gain the outer product of a column with coefficients.
ghost use Rattle.std.specs.Prelude.{◌≡◌, ◌-◌, length, OnOk, OnErr};
ghost use Rattle.shape.specs.Refusals.{answer, first_of};
ghost use Rattle.product.specs.Tests.{ger_cols_tests, RangeLawful};
ghost use Rattle.product.specs.Results.{GerCols};

use crate::check::check_range;
use crate::gains::gain_part;
use scalar::{Scalar, Scale};
use shape::lanes::lane_for;
use shape::{Band, Column, Refusal, TableShape};

/// Every lane of an accepted call: as many columns gain as there are coefficients.
fn spread_lanes<S: Scalar>(
    a: Scale<S>,
    x: &[S],
    p: Column,
    ps: &[S],
    t: TableShape,
    ts: &mut [S],
    start: usize,
)
    requires { RangeLawful t (length ts.old) start (length x.now) (length x.now) p (length ps.now) }
    ensures { GerCols S.means S.ops (S.means a.0) x.now p ps.now t start (length x.now) ts.old ts.new }
{
    let target = Band {
        of: t,
        first: start,
        count: x.len(),
    };
    for lane in 0..t.lanes {
        let from = p.start(lane_for(lane, p.of.lanes, t.lanes));
        gain_part(a, x, ps, from, t.rows, ts, target.start(lane));
    }
}

fn ger_cols_lanes<S: Scalar>(
    a: Scale<S>,
    x: &[S],
    p: Column,
    ps: &[S],
    t: TableShape,
    ts: &mut [S],
    start: usize,
    n: usize,
)
    requires { RangeLawful t (length ts.old) start n (length x.now) p (length ps.now) }
    ensures { GerCols S.means S.ops (S.means a.0) x.now p ps.now t start n ts.old ts.new }
{
    spread_lanes(a, &x[..n], p, ps, t, ts, start);
}

/// Cell (i, start + l) of t gains (a·x_l)·p_i: BLAS's ger on columns `start` to `end` − 1, at most
/// eight, in every lane of t. The lanes of p broadcast into them, and all share the coefficients;
/// those past `end` − `start` are not read.
///
/// Refuses what `gemv_cols` refuses, with p for the column, and 8 where p's lanes do not go into t's.
pub fn ger_cols<S: Scalar>(
    a: Scale<S>,
    x: &[S],
    p: Column,
    ps: &[S],
    t: TableShape,
    ts: &mut [S],
    start: usize,
    end: usize,
) -> Result<(), Refusal>
    ensures verdict { answer result ≡ first_of (ger_cols_tests t (length ts.old) start end (length x.now) p (length ps.now)) }
    ensures accepted { OnOk result (GerCols S.means S.ops (S.means a.0) x.now p ps.now t start (end - start) ts.old ts.new) }
    ensures refused { OnErr result (ts.new ≡ ts.old) }
{
    let (source, lanes) = (p.of.lanes, t.lanes);
    check_range(t, ts.len(), start, end, x.len(), p, ps.len(), source, lanes)?;
    ger_cols_lanes(a, x, p, ps, t, ts, start, end - start);
    Ok(())
}
