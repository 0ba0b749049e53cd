//! squared_norm: the weighted squared error norm, the greatest over the lanes.
ghost use Rattle.std.specs.Prelude.{◌≡◌, ◌+◌, ◌<◌, ◌≤◌, length, IfOk, OnOk};
ghost use Rattle.scalar.specs.Sums.{at};
ghost use Rattle.shape.specs.Refusals.{answer, first_of};
ghost use Rattle.norm.specs.Norms.{weighted, mean, reduced, lane_norm, norm_tests, NormLawful};

use scalar::{Ordered, Scale};
use shape::lanes::{lane_for, no_broadcast};
use shape::{Column, Refusal, refuse_columns};

/// The tests, and what acceptance tells.
// Inlined for both formats: a norm of two rows takes three quarters of the instructions.
#[inline(always)]
fn check_norm(
    x: Column,
    x_len: usize,
    y: Column,
    y_len: usize,
    atol: Column,
    atol_len: usize,
) -> Result<(), Refusal>
    ensures verdict { answer result ≡ first_of (norm_tests x x_len y y_len atol atol_len) }
    ensures lawful { OnOk result (NormLawful x x_len y y_len atol atol_len) }
{
    refuse_columns!(x, x_len; y, y_len; atol, atol_len);
    if y.of.rows != x.of.rows || atol.of.rows != x.of.rows {
        return Err(Refusal::Counts);
    }
    if no_broadcast(y.of.lanes, x.of.lanes) || no_broadcast(atol.of.lanes, x.of.lanes) {
        return Err(Refusal::Lanes);
    }
    Ok(())
}

/// The square of x / (|y|·rtol + atol).
fn square<S: Ordered>(x: S, y: S, rtol: S, atol: S) -> S
    ensures { S.means result ≡ weighted S.ops S.order (S.means x) (S.means y) (S.means rtol) (S.means atol) }
{
    let q = x.div(y.abs().mul(rtol).add(atol));
    q.mul(q)
}

/// One lane's runs.
fn norm_run<S: Ordered>(x: &[S], y: &[S], rtol: S, atol: &[S]) -> S
    requires second { length y.now ≡ length x.now }
    requires third { length atol.now ≡ length x.now }
    ensures { S.means result ≡ mean S.ops S.order (length x.now) (at S.means S.ops x.now) (at S.means S.ops y.now) (S.means rtol) (at S.means S.ops atol.now) }
{
    let mut sum = S::zero();
    for ((x, y), atol) in x.iter().zip(y).zip(atol) {
        sum = sum.add(square(*x, *y, rtol, *atol));
    }
    sum.div(S::of_count(x.len()))
}

/// The runs of `rows` entries, lent from the whole memories.
fn norm_part<S: Ordered>(
    xs: &[S],
    x_from: usize,
    ys: &[S],
    y_from: usize,
    rtol: S,
    atols: &[S],
    atol_from: usize,
    rows: usize,
) -> S
    requires first { x_from + rows ≤ length xs.now }
    requires second { y_from + rows ≤ length ys.now }
    requires third { atol_from + rows ≤ length atols.now }
    ensures { S.means result ≡ mean S.ops S.order rows (λ i. at S.means S.ops xs.now (x_from + i)) (λ i. at S.means S.ops ys.now (y_from + i)) (S.means rtol) (λ i. at S.means S.ops atols.now (atol_from + i)) }
{
    norm_run(
        &xs[x_from..x_from + rows],
        &ys[y_from..y_from + rows],
        rtol,
        &atols[atol_from..atol_from + rows],
    )
}

/// One lane of an accepted call.
fn norm_lane<S: Ordered>(
    x: Column,
    xs: &[S],
    y: Column,
    ys: &[S],
    rtol: S,
    atol: Column,
    atols: &[S],
    lane: usize,
) -> S
    requires law { NormLawful x (length xs.now) y (length ys.now) atol (length atols.now) }
    requires lane { lane < x.of.lanes }
    ensures { S.means result ≡ lane_norm S.means S.ops S.order x xs.now y ys.now atol atols.now (S.means rtol) lane }
{
    let y_from = y.start(lane_for(lane, y.of.lanes, x.of.lanes));
    let atol_from = atol.start(lane_for(lane, atol.of.lanes, x.of.lanes));
    norm_part(
        xs,
        x.start(lane),
        ys,
        y_from,
        rtol,
        atols,
        atol_from,
        x.of.rows,
    )
}

/// One lane is the answer itself, not-a-number included; several give the greatest.
fn norm_lanes<S: Ordered>(
    x: Column,
    xs: &[S],
    y: Column,
    ys: &[S],
    rtol: S,
    atol: Column,
    atols: &[S],
) -> S
    requires { NormLawful x (length xs.now) y (length ys.now) atol (length atols.now) }
    ensures { S.means result ≡ reduced S.ops S.order (lane_norm S.means S.ops S.order x xs.now y ys.now atol atols.now (S.means rtol)) x.of.lanes }
{
    if x.of.lanes == 1 {
        return norm_lane(x, xs, y, ys, rtol, atol, atols, 0);
    }
    let mut most = S::zero();
    for lane in 0..x.of.lanes {
        most = most.greater(norm_lane(x, xs, y, ys, rtol, atol, atols, lane));
    }
    most
}

/// For a lane the sum, first row to last, of the square of x / (|y|·rtol + atol), divided by the
/// number of rows; the greatest over x's lanes, into which y and atol broadcast.
pub fn squared_norm<S: Ordered>(
    x: Column,
    xs: &[S],
    y: Column,
    ys: &[S],
    rtol: Scale<S>,
    atol: Column,
    atols: &[S],
) -> Result<S, Refusal>
    ensures verdict { answer result ≡ first_of (norm_tests x (length xs.now) y (length ys.now) atol (length atols.now)) }
    ensures accepted { IfOk result (λ v. S.means v ≡ reduced S.ops S.order (lane_norm S.means S.ops S.order x xs.now y ys.now atol atols.now (S.means rtol.0)) x.of.lanes) }
{
    check_norm(x, xs.len(), y, ys.len(), atol, atols.len())?;
    Ok(norm_lanes(x, xs, y, ys, rtol.0, atol, atols))
}
