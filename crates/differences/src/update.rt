//! The update of a table of backward differences by a new difference d.
ghost use Rattle.std.specs.Prelude.{◌≡◌, ℕ, ◌+◌, ◌-◌, ◌<◌, ◌≤◌, List, length, nat_le, OnOk, OnErr};
ghost use Rattle.scalar.specs.Sums.{at};
ghost use Rattle.shape.specs.Shapes.{Fits};
ghost use Rattle.shape.specs.Refusals.{answer, first_of};
ghost use Rattle.shape.specs.Changes.{Changed, RunChanged, LaneBand, meant};
ghost use Rattle.differences.specs.Updates.{update_tests, UpdateLawful, Updated, Accumulated, cell_updated_by};

use scalar::Scalar;
use shape::check::no_column;
use shape::lanes::{lane_for, no_broadcast};
use shape::{Column, Refusal, TableShape, refuse_shapes};

/// order + 2 is not below the columns; asked without the sum, which could wrap.
pub(crate) fn no_order(t: TableShape, order: usize) -> bool
    ensures { result ≡ nat_le t.cols (order + 2) }
{
    order >= t.cols || t.cols - order <= 2
}

/// The tests of an update, and what acceptance tells.
fn check_update(
    t: TableShape,
    len: usize,
    order: usize,
    d: Column,
    d_len: usize,
) -> Result<(), Refusal>
    ensures verdict { answer result ≡ first_of (update_tests t len order d d_len) }
    ensures lawful { OnOk result (UpdateLawful t len order d d_len) }
{
    refuse_shapes!(t, len; d.of, d_len);
    if no_order(t, order) || no_column(d) {
        return Err(Refusal::NoColumn);
    }
    if d.of.rows != t.rows {
        return Err(Refusal::Counts);
    }
    if no_broadcast(d.of.lanes, t.lanes) {
        return Err(Refusal::Lanes);
    }
    Ok(())
}

/// d − x: the negation is added.
fn less<S: Scalar>(d: S, x: S) -> S
    ensures { S.means result ≡ S.ops.plus (S.means d) (S.ops.minus (S.means x)) }
{
    d.add(x.neg())
}

/// The run at `to` gains the run after it at `from`.
fn gain_run<S: Scalar>(ts: &mut [S], to: usize, from: usize, rows: usize)
    requires apart { to + rows ≤ from }
    requires fits { from + rows ≤ length ts.old }
    ensures { RunChanged to rows (λ i v. S.means v ≡ S.ops.plus (at S.means S.ops ts.old (to + i)) (at S.means S.ops ts.old (from + i))) ts.old ts.new }
{
    let (left, right) = ts.split_at_mut(from);
    for (i, v) in left[to..to + rows].iter_mut().enumerate() {
        *v = v.add(right[i]);
    }
}

/// The run at `to` becomes d − the run at `before`, which lies before it.
fn difference_run<S: Scalar>(ts: &mut [S], to: usize, before: usize, d: &[S])
    requires apart { before + length d.now ≤ to }
    requires fits { to + length d.now ≤ length ts.old }
    ensures { RunChanged to (length d.now) (λ i v. S.means v ≡ S.ops.plus (at S.means S.ops d.now i) (S.ops.minus (at S.means S.ops ts.old (before + i)))) ts.old ts.new }
{
    for (i, v) in d.iter().enumerate() {
        ts[to + i] = less(*v, ts[before + i]);
    }
}

/// Column j of a lane gains its right neighbour: where the columns from j + 1 up to n are
/// accumulated, those from j on are then too.
fn gain_column<S: Scalar>(t: TableShape, ts: &mut [S], lane: usize, j: usize)
    requires fits { Fits t (length ts.old) }
    requires lane { lane < t.lanes }
    requires within { j + 1 < t.cols }
    ensures { (n m : ℕ) (old : List S) → Accumulated S.means S.ops t lane n m old ts.old → m ≡ j + 1 → j < n → length ts.old ≡ length old → Accumulated S.means S.ops t lane n j old ts.new }
{
    let to = t.column(j).start(lane);
    let from = t.column(j + 1).start(lane);
    gain_run(ts, to, from, t.rows);
}

/// In one lane the columns left of column n gain their right neighbour, from the last down to 0.
fn accumulate_lane<S: Scalar>(t: TableShape, ts: &mut [S], lane: usize, n: usize)
    requires fits { Fits t (length ts.old) }
    requires lane { lane < t.lanes }
    requires within { n < t.cols }
    ensures { Accumulated S.means S.ops t lane n 0 ts.old ts.new }
{
    for j in (0..n).rev() {
        gain_column(t, ts, lane, j);
    }
}

/// One lane, whose run of d starts at `from`.
fn update_lane<S: Scalar>(
    t: TableShape,
    ts: &mut [S],
    lane: usize,
    order: usize,
    ds: &[S],
    from: usize,
)
    requires fits { Fits t (length ts.old) }
    requires lane { lane < t.lanes }
    requires within { order + 2 < t.cols }
    requires source { from + t.rows ≤ length ds.now }
    ensures { Changed t (LaneBand lane 0 (order + 3)) (meant S.means (cell_updated_by S.means S.ops t order ds.now from ts.old)) ts.old ts.new }
{
    let to = t.column(order + 2).start(lane);
    let before = t.column(order + 1).start(lane);
    difference_run(ts, to, before, &ds[from..from + t.rows]);
    accumulate_lane(t, ts, lane, order + 2);
}

fn update_lanes<S: Scalar>(t: TableShape, ts: &mut [S], order: usize, d: Column, ds: &[S])
    requires { UpdateLawful t (length ts.old) order d (length ds.now) }
    ensures { Updated S.means S.ops t order d ds.now ts.old ts.new }
{
    for lane in 0..t.lanes {
        let from = d.start(lane_for(lane, d.of.lanes, t.lanes));
        update_lane(t, ts, lane, order, ds, from);
    }
}

/// Column order + 2 becomes d less column order + 1; then each column from order + 1 down to 0
/// gains its right neighbour, already updated.
pub fn update_backward_diff<S: Scalar>(
    t: TableShape,
    ts: &mut [S],
    order: usize,
    d: Column,
    ds: &[S],
) -> Result<(), Refusal>
    ensures verdict { answer result ≡ first_of (update_tests t (length ts.old) order d (length ds.now)) }
    ensures accepted { OnOk result (Updated S.means S.ops t order d ds.now ts.old ts.new) }
    ensures refused { OnErr result (ts.new ≡ ts.old) }
{
    check_update(t, ts.len(), order, d, ds.len())?;
    update_lanes(t, ts, order, d, ds);
    Ok(())
}
