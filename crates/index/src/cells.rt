//! The index calls on tables: a list names cells of a lane, from the lane's start on.
ghost use Rattle.std.specs.Prelude.{◌≡◌, ℕ, ◌+◌, ◌<◌, ◌≤◌, length, slice_index, slice_index_or, OnOk, OnErr};
ghost use Rattle.shape.specs.Refusals.{answer, first_of};
ghost use Rattle.shape.specs.Changes.{RunChanged};
ghost use Rattle.index.specs.Indices.{Inside, settled};
ghost use Rattle.index.specs.Tables.{cells_tests, CellsLawful, Gathered, pairs_tests, PairsLawful, SetByPairs};

use crate::cell_check::{check_cells, check_pairs, lane_cells, with_partner};
use crate::lanes::route_part;
use crate::route::Route;
use scalar::Scalar;
use shape::lanes::lane_for;
use shape::{Column, Refusal, TableShape};

/// The lanes of an accepted call: of a destination's lane the run that the list fills.
fn gather_lanes<S: Copy>(x: TableShape, xs: &[S], list: &[usize], t: TableShape, ts: &mut [S])
    requires { CellsLawful x (length xs.now) list.now t (length ts.old) }
    ensures { Gathered x xs.now list.now t ts.old ts.new }
{
    let source = x.band();
    let target = t.band();
    for lane in 0..t.lanes {
        let from = source.start(lane_for(lane, x.lanes, t.lanes));
        route_part(
            Route::Gather,
            list,
            xs,
            from,
            lane_cells(x),
            ts,
            target.start(lane),
            list.len(),
        );
    }
}

/// In every lane of t the cell at place i becomes the cell of x at the place, in its lane, that
/// the list names at i; cells past the list keep their value.
pub fn gather<S: Scalar>(
    x: TableShape,
    xs: &[S],
    list: &[usize],
    t: TableShape,
    ts: &mut [S],
) -> Result<(), Refusal>
    ensures verdict { answer result ≡ first_of (cells_tests x (length xs.now) list.now t (length ts.old)) }
    ensures accepted { OnOk result (Gathered x xs.now list.now t ts.old ts.new) }
    ensures refused { OnErr result (ts.new ≡ ts.old) }
{
    check_cells(x, xs.len(), list, t, ts.len())?;
    gather_lanes(x, xs, list, t, ts);
    Ok(())
}

fn set_run<S: Copy>(dst: &[usize], src: &[usize], x: &[S], y: &mut [S])
    requires pairs { length dst.now ≤ length src.now }
    requires inside { Inside (length y.old) dst.now }
    requires rows { (p : ℕ) → p < length dst.now → slice_index src.now p < length x.now }
    ensures { (k : ℕ) (d : S) → k < length y.old → slice_index_or y.new k d ≡ settled dst.now 0 k (λ p. slice_index_or x.now (slice_index src.now p) d) (slice_index_or y.old k d) }
{
    for (i, k) in dst.iter().enumerate() {
        y[*k] = x[src[i]];
    }
}

/// The runs of m entries of the source and of n of the destination, lent from the whole memories.
fn set_part<S: Copy>(
    dst: &[usize],
    src: &[usize],
    xs: &[S],
    from: usize,
    m: usize,
    ys: &mut [S],
    to: usize,
    n: usize,
)
    requires pairs { length dst.now ≤ length src.now }
    requires inside { Inside n dst.now }
    requires rows { (p : ℕ) → p < length dst.now → slice_index src.now p < m }
    requires source { from + m ≤ length xs.now }
    requires target { to + n ≤ length ys.old }
    ensures { RunChanged to n (λ k v. (d : S) → v ≡ settled dst.now 0 k (λ p. slice_index_or xs.now (from + slice_index src.now p) d) (slice_index_or ys.old (to + k) d)) ys.old ys.new }
{
    set_run(dst, src, &xs[from..from + m], &mut ys[to..to + n]);
}

/// The lanes of an accepted call.
fn set_lanes<S: Copy>(
    dst: &[usize],
    src: &[usize],
    v: Column,
    vs: &[S],
    t: TableShape,
    ts: &mut [S],
)
    requires { PairsLawful dst.now src.now v (length vs.now) t (length ts.old) }
    ensures { SetByPairs dst.now src.now v vs.now t ts.old ts.new }
{
    let places = with_partner(dst, src);
    let target = t.band();
    for lane in 0..t.lanes {
        let from = v.start(lane_for(lane, v.of.lanes, t.lanes));
        set_part(
            places,
            src,
            vs,
            from,
            v.of.rows,
            ts,
            target.start(lane),
            lane_cells(t),
        );
    }
}

/// For each pair of the lists, in their order, the cell of every lane of t at the place dst(i)
/// becomes row src(i) of v. Entries without a partner are not read.
pub fn set_data_with_indices<S: Scalar>(
    dst: &[usize],
    src: &[usize],
    v: Column,
    vs: &[S],
    t: TableShape,
    ts: &mut [S],
) -> Result<(), Refusal>
    ensures verdict { answer result ≡ first_of (pairs_tests dst.now src.now v (length vs.now) t (length ts.old)) }
    ensures accepted { OnOk result (SetByPairs dst.now src.now v vs.now t ts.old ts.new) }
    ensures refused { OnErr result (ts.new ≡ ts.old) }
{
    check_pairs(dst, src, v, vs.len(), t, ts.len())?;
    set_lanes(dst, src, v, vs, t, ts);
    Ok(())
}
