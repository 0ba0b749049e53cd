//! batched_axpy: axpy with a factor for each lane.
ghost use Rattle.std.specs.Prelude.{◌≡◌, ℕ, ◌+◌, ◌≤◌, length, slice_index_or, OnOk, OnErr};
ghost use Rattle.scalar.specs.Ops.{Ops};
ghost use Rattle.shape.specs.Refusals.{answer, first_of};
ghost use Rattle.shape.specs.Changes.{Changed, RunChanged, InColumn};
ghost use Rattle.vector.specs.Rows.{blend};
ghost use Rattle.vector.specs.Batched.{batched, batched_tests, BatchedLawful};

use crate::combine::axpy;
use scalar::{Scalar, Scale};
use shape::lanes::{lane_for, no_broadcast};
use shape::{Column, Refusal, refuse_columns};

/// The tests, and what acceptance tells.
fn check_batched(
    factors: Column,
    factors_len: usize,
    x: Column,
    x_len: usize,
    y: Column,
    y_len: usize,
) -> Result<(), Refusal>
    ensures verdict { answer result ≡ first_of (batched_tests factors factors_len x x_len y y_len) }
    ensures lawful { OnOk result (BatchedLawful factors factors_len x x_len y y_len) }
{
    refuse_columns!(factors, factors_len; x, x_len; y, y_len);
    if factors.of.rows != 1 || x.of.rows != y.of.rows {
        return Err(Refusal::Counts);
    }
    if factors.of.lanes != y.of.lanes || no_broadcast(x.of.lanes, y.of.lanes) {
        return Err(Refusal::Lanes);
    }
    Ok(())
}

/// axpy of one lane's runs, lent as whole vectors of one lane.
fn axpy_part<S: Scalar>(
    a: Scale<S>,
    xs: &[S],
    from: usize,
    b: Scale<S>,
    ys: &mut [S],
    to: usize,
    rows: usize,
)
    requires source { from + rows ≤ length xs.now }
    requires target { to + rows ≤ length ys.old }
    requires few { rows ≤ 65536 }
    ensures { RunChanged to rows (λ i v. (d : S) → S.means v ≡ blend S.ops (S.means a.0) (S.means (slice_index_or xs.now (from + i) d)) (S.means b.0) (S.means (slice_index_or ys.old (to + i) d))) ys.old ys.new }
{
    let lane = Column::vector(rows, 1);
    // The shapes are lawful, so it is accepted.
    let _ = axpy(
        a,
        lane,
        &xs[from..from + rows],
        b,
        lane,
        &mut ys[to..to + rows],
    );
}

fn batched_lanes<S: Scalar>(
    factors: Column,
    fs: &[S],
    x: Column,
    xs: &[S],
    b: Scale<S>,
    y: Column,
    ys: &mut [S],
)
    requires { BatchedLawful factors (length fs.now) x (length xs.now) y (length ys.old) }
    ensures { Changed y.of (InColumn y.col) (batched S.means S.ops factors fs.now x xs.now (S.means b.0) y ys.old) ys.old ys.new }
{
    for lane in 0..y.of.lanes {
        let a = fs[factors.start(lane)];
        let from = x.start(lane_for(lane, x.of.lanes, y.of.lanes));
        axpy_part(Scale(a), xs, from, b, ys, y.start(lane), y.of.rows);
    }
}

/// In lane l, y becomes a_l·x + b·y, and a_l·x alone where b is zero; a_l is the one row of lane
/// l of the factors, which have exactly y's lanes.
pub fn batched_axpy<S: Scalar>(
    factors: Column,
    fs: &[S],
    x: Column,
    xs: &[S],
    b: Scale<S>,
    y: Column,
    ys: &mut [S],
) -> Result<(), Refusal>
    ensures verdict { answer result ≡ first_of (batched_tests factors (length fs.now) x (length xs.now) y (length ys.old)) }
    ensures accepted { OnOk result (Changed y.of (InColumn y.col) (batched S.means S.ops factors fs.now x xs.now (S.means b.0) y ys.old) ys.old ys.new) }
    ensures refused { OnErr result (ys.new ≡ ys.old) }
{
    check_batched(factors, fs.len(), x, xs.len(), y, ys.len())?;
    batched_lanes(factors, fs, x, xs, b, y, ys);
    Ok(())
}
