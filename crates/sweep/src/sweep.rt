//! The sweep forward, and the turned sweep that goes back.
ghost use Rattle.std.specs.Prelude.{◌≡◌, ◌+◌, ◌-◌, ◌<◌, ◌≤◌, length, IfOk, ◌≢◌, OnOk, OnErr};
ghost use Rattle.shape.specs.Refusals.{answer, first_of};
ghost use Rattle.steps.specs.Lanes.{StepForward, StepBack};
ghost use Rattle.state.specs.Memory.{held, SameLoan, lengths, lane_of};
ghost use Rattle.state.specs.Reach.{KeptBeyond, reach_forward, reach_back};
ghost use Rattle.forward.specs.Tests.{memory_tests};
ghost use Rattle.backward.specs.Tests.{weights_tests};
ghost use Rattle.sweep.specs.Sweeps.{answered, Placed, record_at, step_at};
ghost use Rattle.sweep.specs.Tests.{open_tests, forward_tests, back_tests};

use crate::fault::StepFault;
use backward::check::check_weights;
use backward::step_back;
use forward::check::check_memory;
use forward::step_forward;
use scalar::Scalar;
use shape::check::{no_lanes, too_large};
use shape::{Refusal, TableShape};
use state::{Parts, Script};

/// A sweep forward: its shape, and how many steps of the script were taken.
#[derive(Drop)]
pub struct Sweep {
    pub shape: TableShape,
    pub taken: usize,
}

/// A sweep that has turned: how many of the steps taken are not yet carried back.
#[derive(Drop)]
pub struct Turned {
    pub shape: TableShape,
    pub left: usize,
}

/// The tests before the next step is taken, and what acceptance tells.
fn check_next(sweep: &Sweep, count: usize, lens: Parts<usize>, work: usize) -> Result<(), Refusal>
    ensures verdict { answer result ≡ first_of (forward_tests sweep.now count lens work) }
    ensures left { OnOk result (sweep.now.taken < count) }
    ensures room { OnOk result (first_of (memory_tests sweep.now.shape lens work) ≡ 0) }
{
    check_memory(sweep.shape, lens, work)?;
    if sweep.taken >= count {
        return Err(Refusal::NoStep);
    }
    Ok(())
}

/// The tests before a step is carried back, and what acceptance tells.
fn check_latest(
    turned: &Turned,
    count: usize,
    lens: Parts<usize>,
    sum: usize,
    work: usize,
) -> Result<(), Refusal>
    ensures verdict { answer result ≡ first_of (back_tests turned.now count lens sum work) }
    ensures some { OnOk result (0 < turned.now.left) }
    ensures inside { OnOk result (turned.now.left ≤ count) }
    ensures room { OnOk result (first_of (weights_tests turned.now.shape lens sum work) ≡ 0) }
{
    check_weights(turned.shape, lens, sum, work)?;
    if turned.left == 0 || turned.left > count {
        return Err(Refusal::NoStep);
    }
    Ok(())
}

impl Sweep {
    /// Opens forward, with no step taken. Refuses 1 and 2 for the shape.
    pub fn open(t: TableShape) -> Result<Sweep, Refusal>
        ensures verdict { answer result ≡ first_of (open_tests t) }
        ensures opened { IfOk result (λ s. (s.shape ≡ t) × (s.taken ≡ 0)) }
    {
        if no_lanes(t) {
            return Err(Refusal::NoLanes);
        }
        if too_large(t) {
            return Err(Refusal::TooLarge);
        }
        Ok(Sweep { shape: t, taken: 0 })
    }

    /// The next step of the script, on the table D and the vectors u and v.
    ///
    /// Refuses 3 where a memory does not hold its shape or the work memory has fewer than eight
    /// scalars, then 12 where the script has no step left: these take no step. Then what the step
    /// itself is refused for: such a step counts as taken and leaves every memory as it is.
    pub fn step<S: Scalar>(
        &mut self,
        script: Script<S>,
        state: &mut Parts<&mut [S]>,
        work: &mut [S],
    ) -> Result<(), StepFault>
        ensures lent { SameLoan state.old state.new }
        ensures shape { self.new.shape ≡ self.old.shape }
        ensures place { Placed self.old.taken result }
        ensures waits { (first_of (forward_tests self.old (length script.entry.steps.now) (lengths (held state.old)) (length work.old)) ≢ 0) → (answered result ≡ first_of (forward_tests self.old (length script.entry.steps.now) (lengths (held state.old)) (length work.old))) × (self.new.taken ≡ self.old.taken) }
        ensures next { first_of (forward_tests self.old (length script.entry.steps.now) (lengths (held state.old)) (length work.old)) ≡ 0 → (self.new.taken ≡ self.old.taken + 1) × StepForward S.ops self.old.shape.rows self.old.shape.cols self.old.shape.lanes (lane_of S.means S.ops self.old.shape) (step_at S.means script.entry self.old.taken) (answered result) (held state.old) (held state.new) }
        ensures kept { KeptBeyond self.old.shape (reach_forward (record_at script.entry self.old.taken).kind) (held state.old) (held state.new) }
        ensures refused { OnErr result ((held state.new ≡ held state.old) × (work.new ≡ work.old)) }
    {
        let place = self.taken;
        let at = |refusal| StepFault { refusal, place };
        check_next(self, script.steps.len(), state.lens(), work.len()).map_err(at)?;
        self.taken = place + 1;
        step_forward(self.shape, state, script.steps[place], script, work).map_err(at)
    }

    /// The sweep turns: the steps taken wait to be carried back, and none can be taken any more.
    pub fn turn(self) -> Turned
        ensures { (result.shape ≡ self.shape) × (result.left ≡ self.taken) }
    {
        Turned {
            shape: self.shape,
            left: self.taken,
        }
    }
}

impl Turned {
    /// How many steps are still to carry back.
    pub fn left(&self) -> usize
        ensures { result ≡ self.now.left }
    {
        self.left
    }

    /// The latest step not yet carried, back on the weights E, p and q, with a vector w for sums.
    ///
    /// Refuses 3 where a memory does not hold its shape or the work memory has fewer than eight
    /// scalars, then 12 where no step is left to carry or the script lacks it: these carry no step.
    /// Then what the step itself was refused for on the way forward: it counts as carried and leaves
    /// every memory as it is. The place of a fault is that of the step, 0 where none is left.
    pub fn back<S: Scalar>(
        &mut self,
        script: Script<S>,
        weights: &mut Parts<&mut [S]>,
        ws: &mut [S],
        work: &mut [S],
    ) -> Result<(), StepFault>
        ensures lent { SameLoan weights.old weights.new }
        ensures shape { self.new.shape ≡ self.old.shape }
        ensures place { Placed (self.old.left - 1) result }
        ensures waits { (first_of (back_tests self.old (length script.entry.steps.now) (lengths (held weights.old)) (length ws.old) (length work.old)) ≢ 0) → (answered result ≡ first_of (back_tests self.old (length script.entry.steps.now) (lengths (held weights.old)) (length ws.old) (length work.old))) × (self.new.left ≡ self.old.left) }
        ensures next { first_of (back_tests self.old (length script.entry.steps.now) (lengths (held weights.old)) (length ws.old) (length work.old)) ≡ 0 → (self.old.left ≡ self.new.left + 1) × StepBack S.ops self.old.shape.rows self.old.shape.cols self.old.shape.lanes (lane_of S.means S.ops self.old.shape) (step_at S.means script.entry self.new.left) (answered result) (held weights.old) (held weights.new) }
        ensures kept { KeptBeyond self.old.shape (reach_back (record_at script.entry (self.old.left - 1)).kind) (held weights.old) (held weights.new) }
        ensures refused { OnErr result ((held weights.new ≡ held weights.old) × (ws.new ≡ ws.old) × (work.new ≡ work.old)) }
    {
        let place = self.left.saturating_sub(1);
        let at = |refusal| StepFault { refusal, place };
        check_latest(
            self,
            script.steps.len(),
            weights.lens(),
            ws.len(),
            work.len(),
        )
        .map_err(at)?;
        self.left = place;
        step_back(self.shape, weights, ws, script.steps[place], script, work).map_err(at)
    }
}
