//! A step of a script, back on lent weights.
ghost use Rattle.std.specs.Prelude.{◌≡◌, ◌++◌, map, length, OnErr};
ghost use Rattle.shape.specs.Shapes.{Fits};
ghost use Rattle.shape.specs.Refusals.{answer, first_of};
ghost use Rattle.steps.specs.Steps.{step_tests, fault};
ghost use Rattle.steps.specs.Lanes.{StepBack};
ghost use Rattle.state.specs.Memory.{held, SameLoan, lengths, vector_of, lane_of, step_of};
ghost use Rattle.forward.specs.Forward.{Allowed};
ghost use Rattle.forward.specs.Tests.{Roomy};
ghost use Rattle.state.specs.Reach.{KeptBeyond, reach_back};
ghost use Rattle.backward.specs.Backs.{BackBy};
ghost use Rattle.backward.specs.Tests.{weights_tests};

use crate::check::check_weights;
use crate::columns::{add_column_back, set_column_back};
use crate::lists::{gather_back, scatter_back};
use crate::tables::{multiply_back, sum_columns_back, update_back};
use crate::vectors::{axpy_back, copy_back, scale_back};
use forward::check::check_step;
use scalar::Scalar;
use shape::{Refusal, TableShape};
use state::{Parts, Script, StepRecord};
use steps::kind::Kind;

/// A kind with its numbers and its list.
fn back_kind<S: Scalar>(
    t: TableShape,
    weights: &mut Parts<&mut [S]>,
    ws: &mut [S],
    kind: Kind,
    numbers: &[S],
    list: &[usize],
    work: &mut [S],
)
    requires room { Roomy t (lengths (held weights.old)) (length work.old) }
    requires sum { Fits (vector_of t).of (length ws.old) }
    requires allowed { Allowed t.rows t.cols kind (length numbers.now) list.now }
    ensures lent { SameLoan weights.old weights.new }
    ensures back { BackBy S.means S.ops t kind (map S.means numbers.now) list.now (held weights.old) (held weights.new) }
    ensures kept { KeptBeyond t (reach_back kind) (held weights.old) (held weights.new) }
{
    let table = &mut *weights.table;
    let first = &mut *weights.first;
    let second = &mut *weights.second;
    match kind {
        Kind::Update { order } => update_back(t, table, first, order, ws, work),
        Kind::Cols { count } => multiply_back(t, table, count, numbers, work),
        Kind::SumCol { start, end } => sum_columns_back(t, table, first, start, end, numbers),
        Kind::AddCol { column } => add_column_back(t, table, first, column),
        Kind::SetCol { column } => set_column_back(t, table, first, column),
        Kind::Axpy => axpy_back(t, first, second, numbers),
        Kind::Copy => copy_back(t, first, second),
        Kind::Scale => scale_back(t, first, numbers),
        Kind::Gather => gather_back(t, first, second, list),
        Kind::Scatter => scatter_back(t, first, second, list),
    }
}

/// An accepted step on weights that hold their shapes. A kind that reads no list may name any place.
fn back_accepted<S: Scalar>(
    t: TableShape,
    weights: &mut Parts<&mut [S]>,
    ws: &mut [S],
    x: StepRecord,
    script: Script<S>,
    work: &mut [S],
)
    requires room { Roomy t (lengths (held weights.old)) (length work.old) }
    requires sum { Fits (vector_of t).of (length ws.old) }
    requires passed { fault t.rows t.cols (step_of S.means x script) ≡ 0 }
    ensures lent { SameLoan weights.old weights.new }
    ensures carried { StepBack S.ops t.rows t.cols t.lanes (lane_of S.means S.ops t) (step_of S.means x script.entry) 0 (held weights.old) (held weights.new) }
    ensures kept { KeptBeyond t (reach_back x.kind) (held weights.old) (held weights.new) }
{
    let numbers = script.numbers_of(x).unwrap_or(&[]);
    let list = script.list_of(x).unwrap_or(&[]);
    back_kind(t, weights, ws, x.kind, numbers, list, work);
}

/// One step of a script on the weights E, p and q of a table of shape t and its vectors, the way
/// back, with the script's numbers and indices, a vector w for a sum and eight scalars or more of
/// work memory.
///
/// Refuses 1 and 2 for the shape, 3 where a memory does not hold its shape or the work memory is too
/// small, and then what the step itself is refused for, as on the way forward. A refused step leaves
/// every memory as it is; an accepted one leaves in each lane what its kind makes of it on the way
/// back, what its kind does not reach as it is stored, and w and the work memory in any state.
pub fn step_back<S: Scalar>(
    t: TableShape,
    weights: &mut Parts<&mut [S]>,
    ws: &mut [S],
    x: StepRecord,
    script: Script<S>,
    work: &mut [S],
) -> Result<(), Refusal>
    ensures lent { SameLoan weights.old weights.new }
    ensures verdict { answer result ≡ first_of (weights_tests t (lengths (held weights.old)) (length ws.old) (length work.old) ++ step_tests t.rows t.cols (step_of S.means x script.entry)) }
    ensures taken { first_of (weights_tests t (lengths (held weights.old)) (length ws.old) (length work.old)) ≡ 0 → StepBack S.ops t.rows t.cols t.lanes (lane_of S.means S.ops t) (step_of S.means x script.entry) (answer result) (held weights.old) (held weights.new) }
    ensures kept { KeptBeyond t (reach_back x.kind) (held weights.old) (held weights.new) }
    ensures refused { OnErr result ((held weights.new ≡ held weights.old) × (ws.new ≡ ws.old) × (work.new ≡ work.old)) }
{
    check_weights(t, weights.lens(), ws.len(), work.len())?;
    check_step(t.rows, t.cols, x, script)?;
    back_accepted(t, weights, ws, x, script, work);
    Ok(())
}
