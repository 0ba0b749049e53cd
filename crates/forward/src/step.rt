//! A step of a script, forward on lent memory.
ghost use Rattle.std.specs.Prelude.{◌≡◌, ◌++◌, map, length, OnErr};
ghost use Rattle.shape.specs.Refusals.{answer, first_of};
ghost use Rattle.steps.specs.Steps.{step_tests, fault};
ghost use Rattle.steps.specs.Lanes.{StepForward};
ghost use Rattle.state.specs.Memory.{held, SameLoan, lengths, lane_of, step_of};
ghost use Rattle.state.specs.Reach.{KeptBeyond, reach_forward};
ghost use Rattle.forward.specs.Forward.{Forward, Allowed};
ghost use Rattle.forward.specs.Tests.{memory_tests, Roomy};

use crate::check::{check_memory, check_step};
use crate::tables::{cols_step, set_col_step, update_step};
use crate::vectors::{
    add_col_step, axpy_step, copy_step, gather_step, scale_step, scatter_step, sum_col_step,
};
use scalar::Scalar;
use shape::{Refusal, TableShape};
use state::{Parts, Script, StepRecord};
use steps::kind::Kind;

/// A kind with its numbers and its list, each by the call named for it.
fn take_kind<S: Scalar>(
    t: TableShape,
    state: &mut Parts<&mut [S]>,
    kind: Kind,
    numbers: &[S],
    list: &[usize],
    work: &mut [S],
)
    requires room { Roomy t (lengths (held state.old)) (length work.old) }
    requires allowed { Allowed t.rows t.cols kind (length numbers.now) list.now }
    ensures lent { SameLoan state.old state.new }
    ensures forward { Forward S.means S.ops t kind (map S.means numbers.now) list.now (held state.old) (held state.new) }
    ensures kept { KeptBeyond t (reach_forward kind) (held state.old) (held state.new) }
{
    let table = &mut *state.table;
    let first = &mut *state.first;
    let second = &mut *state.second;
    match kind {
        Kind::Update { order } => update_step(t, table, order, first),
        Kind::Cols { count } => cols_step(t, table, count, numbers, work),
        Kind::SumCol { start, end } => sum_col_step(t, table, start, end, first, numbers),
        Kind::AddCol { column } => add_col_step(t, table, column, first),
        Kind::SetCol { column } => set_col_step(t, table, column, first),
        Kind::Axpy => axpy_step(t, first, second, numbers),
        Kind::Copy => copy_step(t, first, second),
        Kind::Scale => scale_step(t, first, numbers),
        Kind::Gather => gather_step(t, first, second, list),
        Kind::Scatter => scatter_step(t, first, second, list),
    }
}

/// An accepted step on memory that holds its shapes. A kind that reads no list may name any place.
fn take_step<S: Scalar>(
    t: TableShape,
    state: &mut Parts<&mut [S]>,
    x: StepRecord,
    script: Script<S>,
    work: &mut [S],
)
    requires room { Roomy t (lengths (held state.old)) (length work.old) }
    requires passed { fault t.rows t.cols (step_of S.means x script) ≡ 0 }
    ensures lent { SameLoan state.old state.new }
    ensures taken { StepForward S.ops t.rows t.cols t.lanes (lane_of S.means S.ops t) (step_of S.means x script.entry) 0 (held state.old) (held state.new) }
    ensures kept { KeptBeyond t (reach_forward x.kind) (held state.old) (held state.new) }
{
    let numbers = script.numbers_of(x).unwrap_or(&[]);
    let list = script.list_of(x).unwrap_or(&[]);
    take_kind(t, state, x.kind, numbers, list, work);
}

/// One step of a script on the table t and its vectors u and v, with the script's numbers and
/// indices and eight scalars or more of work memory.
///
/// Refuses 1 and 2 for the shape, 3 where a memory does not hold its shape or the work memory is too
/// small, and then what the step itself is refused for. A refused step leaves every memory as it is;
/// an accepted one leaves in each lane what its kind makes of it, what its kind does not reach as it
/// is stored, and the work memory in any state.
pub fn step_forward<S: Scalar>(
    t: TableShape,
    state: &mut Parts<&mut [S]>,
    x: StepRecord,
    script: Script<S>,
    work: &mut [S],
) -> Result<(), Refusal>
    ensures lent { SameLoan state.old state.new }
    ensures verdict { answer result ≡ first_of (memory_tests t (lengths (held state.old)) (length work.old) ++ step_tests t.rows t.cols (step_of S.means x script.entry)) }
    ensures taken { first_of (memory_tests t (lengths (held state.old)) (length work.old)) ≡ 0 → StepForward S.ops t.rows t.cols t.lanes (lane_of S.means S.ops t) (step_of S.means x script.entry) (answer result) (held state.old) (held state.new) }
    ensures kept { KeptBeyond t (reach_forward x.kind) (held state.old) (held state.new) }
    ensures refused { OnErr result ((held state.new ≡ held state.old) × (work.new ≡ work.old)) }
{
    check_memory(t, state.lens(), work.len())?;
    check_step(t.rows, t.cols, x, script)?;
    take_step(t, state, x, script, work);
    Ok(())
}
