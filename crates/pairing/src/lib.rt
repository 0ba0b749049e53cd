//! The pairing of a state with weights: for each lane the sum of all products of a state's entry
//! with the weight at its place.
#![tactic(auto)]

ghost use Rattle.std.specs.Prelude.{◌≡◌, ℕ, ◌+◌, ◌<◌, ◌≤◌, length, OnOk, OnErr};
ghost use Rattle.scalar.specs.Ops.{Ops};
ghost use Rattle.scalar.specs.Sums.{at, sum_from};
ghost use Rattle.shape.specs.Shapes.{cell, Fits};
ghost use Rattle.shape.specs.Refusals.{answer, first_of};
ghost use Rattle.steps.specs.States.{columns_from};
ghost use Rattle.state.specs.Memory.{shown, lengths};
ghost use Rattle.pairing.specs.Pairings.{pairing_tests, Pairable, lane_pairing};

use scalar::Scalar;
use shape::{Column, Refusal, TableShape};
use state::Parts;
use state::parts::check_parts;

/// The tests of `pairings`, and what acceptance tells.
fn check_pairing(
    t: TableShape,
    state: Parts<usize>,
    weights: Parts<usize>,
    sums: usize,
) -> Result<(), Refusal>
    ensures verdict { answer result ≡ first_of (pairing_tests t state weights sums) }
    ensures lawful { OnOk result (Pairable t state weights sums) }
{
    check_parts(t, state)?;
    check_parts(t, weights)?;
    if sums != t.lanes {
        return Err(Refusal::Memory);
    }
    Ok(())
}

/// `sum`, and then the products of two runs, added in their order.
fn add_products<S: Scalar>(sum: S, xs: &[S], ys: &[S]) -> S
    requires { length ys.now ≡ length xs.now }
    ensures { S.means result ≡ sum_from S.ops (S.means sum) (λ i. S.ops.times (at S.means S.ops xs.now i) (at S.means S.ops ys.now i)) (length xs.now) }
{
    let mut sum = sum;
    for (x, y) in xs.iter().zip(ys) {
        sum = sum.add(x.mul(*y));
    }
    sum
}

/// The runs of `rows` entries from `from` on, lent from the whole memories.
fn add_part<S: Scalar>(sum: S, xs: &[S], ys: &[S], from: usize, rows: usize) -> S
    requires entries { from + rows ≤ length xs.now }
    requires weights { from + rows ≤ length ys.now }
    ensures { S.means result ≡ sum_from S.ops (S.means sum) (λ i. S.ops.times (at S.means S.ops xs.now (from + i)) (at S.means S.ops ys.now (from + i))) rows }
{
    add_products(sum, &xs[from..from + rows], &ys[from..from + rows])
}

/// `sum`, and then the products of a column of one lane.
fn add_column<S: Scalar>(sum: S, v: Column, xs: &[S], ys: &[S], lane: usize) -> S
    requires entries { Fits v.of (length xs.now) }
    requires weights { Fits v.of (length ys.now) }
    requires column { v.col < v.of.cols }
    requires lane { lane < v.of.lanes }
    ensures { S.means result ≡ sum_from S.ops (S.means sum) (λ i. S.ops.times (at S.means S.ops xs.now (cell v.of lane v.col i)) (at S.means S.ops ys.now (cell v.of lane v.col i))) v.of.rows }
{
    add_part(sum, xs, ys, v.start(lane), v.of.rows)
}

/// The products of one lane of a table with its weights, column after column.
fn pair_table<S: Scalar>(t: TableShape, ds: &[S], es: &[S], lane: usize) -> S
    requires entries { Fits t (length ds.now) }
    requires weights { Fits t (length es.now) }
    requires lane { lane < t.lanes }
    ensures { S.means result ≡ columns_from S.ops t.rows S.ops.zero (λ j i. S.ops.times (at S.means S.ops ds.now (cell t lane j i)) (at S.means S.ops es.now (cell t lane j i))) t.cols }
{
    let mut sum = S::zero();
    for j in 0..t.cols {
        sum = add_column(sum, t.column(j), ds, es, lane);
    }
    sum
}

/// One lane of an accepted call.
fn pair_lane<S: Scalar>(t: TableShape, state: Parts<&[S]>, weights: Parts<&[S]>, lane: usize) -> S
    requires room { Pairable t (lengths (shown state)) (lengths (shown weights)) t.lanes }
    requires lane { lane < t.lanes }
    ensures { S.means result ≡ lane_pairing S.means S.ops t (shown state.entry) (shown weights.entry) lane }
{
    let vector = Column::vector(t.rows, t.lanes);
    let table = pair_table(t, state.table, weights.table, lane);
    let first = add_column(table, vector, state.first, weights.first, lane);
    add_column(first, vector, state.second, weights.second, lane)
}

/// Every lane of an accepted call.
fn pair_lanes<S: Scalar>(t: TableShape, state: Parts<&[S]>, weights: Parts<&[S]>, sums: &mut [S])
    requires { Pairable t (lengths (shown state)) (lengths (shown weights)) (length sums.old) }
    ensures { (b : ℕ) → b < t.lanes → at S.means S.ops sums.new b ≡ lane_pairing S.means S.ops t (shown state.entry) (shown weights.entry) b }
{
    for (lane, sum) in sums.iter_mut().enumerate() {
        *sum = pair_lane(t, state, weights, lane);
    }
}

/// The pairing of the state D, u, v with the weights E, p, q in each lane: entry b of `sums` becomes
/// that of lane b. The products are added from zero in memory order: D column after column, then u,
/// then v.
///
/// Refuses 1 and 2 for the shape, 3 where a memory does not hold its shape or `sums` has not one
/// entry for each lane. A refusal leaves `sums` as it is.
pub fn pairings<S: Scalar>(
    t: TableShape,
    state: Parts<&[S]>,
    weights: Parts<&[S]>,
    sums: &mut [S],
) -> Result<(), Refusal>
    ensures verdict { answer result ≡ first_of (pairing_tests t (lengths (shown state.entry)) (lengths (shown weights.entry)) (length sums.old)) }
    ensures accepted { OnOk result ((b : ℕ) → b < t.lanes → at S.means S.ops sums.new b ≡ lane_pairing S.means S.ops t (shown state.entry) (shown weights.entry) b) }
    ensures refused { OnErr result (sums.new ≡ sums.old) }
{
    check_pairing(t, state.lens(), weights.lens(), sums.len())?;
    pair_lanes(t, state, weights, sums);
    Ok(())
}
