//! The tests that the matrix-vector calls begin with. Each number is tested over all operands
//! before the next.
ghost use Rattle.std.specs.Prelude.{◌≡◌, ◌-◌, OnOk};
ghost use Rattle.shape.specs.Refusals.{answer, first_of};
ghost use Rattle.product.specs.Tests.{gemv_tests, GemvLawful, range_tests, RangeLawful};

use shape::check::no_column;
use shape::lanes::no_broadcast;
use shape::{Column, Refusal, TableShape, refuse_shapes};

/// The tests of table t times column x into column y, and what acceptance tells.
pub(crate) fn check_gemv(
    t: TableShape,
    t_len: usize,
    x: Column,
    x_len: usize,
    y: Column,
    y_len: usize,
) -> Result<(), Refusal>
    ensures verdict { answer result ≡ first_of (gemv_tests t t_len x x_len y y_len) }
    ensures lawful { OnOk result (GemvLawful t t_len x x_len y y_len) }
{
    refuse_shapes!(t, t_len; x.of, x_len; y.of, y_len);
    if no_column(x) || no_column(y) {
        return Err(Refusal::NoColumn);
    }
    if t.rows != y.of.rows || x.of.rows != t.cols {
        return Err(Refusal::Counts);
    }
    if no_broadcast(t.lanes, y.of.lanes) || no_broadcast(x.of.lanes, y.of.lanes) {
        return Err(Refusal::Lanes);
    }
    Ok(())
}

/// The tests of columns `start` to `end` − 1 of table t with `count` coefficients and column v,
/// and what acceptance tells. A caller whose source has `source` lanes reads it into `lanes`.
pub(crate) fn check_range(
    t: TableShape,
    t_len: usize,
    start: usize,
    end: usize,
    count: usize,
    v: Column,
    v_len: usize,
    source: usize,
    lanes: usize,
) -> Result<(), Refusal>
    ensures verdict { answer result ≡ first_of (range_tests t t_len start end count v v_len source lanes) }
    ensures lawful { OnOk result (RangeLawful t t_len start (end - start) count v v_len) }
{
    refuse_shapes!(t, t_len; v.of, v_len);
    if end > t.cols || end < start || no_column(v) {
        return Err(Refusal::NoColumn);
    }
    if end - start > 8 {
        return Err(Refusal::TooMany);
    }
    if count < end - start {
        return Err(Refusal::Numbers);
    }
    if t.rows != v.of.rows {
        return Err(Refusal::Counts);
    }
    if no_broadcast(source, lanes) {
        return Err(Refusal::Lanes);
    }
    Ok(())
}
