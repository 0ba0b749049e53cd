//! A whole script forward on a state and back on weights, and the two laws of such runs.
ghost use Rattle.std.specs.Prelude.{◌≡◌, ℕ, List, map, length, OnOk, OnErr};
ghost use Rattle.shape.specs.Refusals.{answer, first_of};
ghost use Rattle.steps.specs.Lanes.{RunForward, RunBack, RunsTransposed, RunsApart};
ghost use Rattle.state.specs.Memory.{held, SameLoan, lengths, lane_of};
ghost use Rattle.forward.specs.Tests.{memory_tests};
ghost use Rattle.backward.specs.Tests.{weights_tests};
ghost use Rattle.sweep.specs.Sweeps.{steps_of};
ghost use Rattle.sweep.specs.Scripts.{run_tests, PairedAlike};

use crate::fault::without_place;
use crate::sweep::{Sweep, Turned};
use backward::check::check_weights;
use forward::check::check_memory;
use scalar::Scalar;
use shape::{Refusal, TableShape};
use state::{Parts, Script};

/// The two laws of runs on memory of the shape t, for a caller who takes the steps of a sweep by
/// hand. For every exact scalar the backward run is the transpose of the forward run; for every
/// scalar no two lanes mix, and refusals come from no entry.
pub fn laws_of_runs<S: Scalar>(t: TableShape)
    ensures transposed { S.exact → RunsTransposed S.ops t.rows t.cols t.lanes (lane_of S.means S.ops t) }
    ensures apart { RunsApart S.ops t.rows t.cols t.lanes (lane_of S.means S.ops t) }
{}

/// Every step of a script, forward; each answer is kept.
fn run_forward<S: Scalar>(
    sweep: &mut Sweep,
    script: Script<S>,
    state: &mut Parts<&mut [S]>,
    work: &mut [S],
    answers: &mut [Result<(), Refusal>],
)
    requires new { sweep.old.taken ≡ 0 }
    requires room { first_of (memory_tests sweep.old.shape (lengths (held state.old)) (length work.old)) ≡ 0 }
    requires answers { length answers.old ≡ length script.steps.now }
    ensures lent { SameLoan state.old state.new }
    ensures shape { sweep.new.shape ≡ sweep.old.shape }
    ensures taken { sweep.new.taken ≡ length script.entry.steps.now }
    ensures run { RunForward S.ops sweep.old.shape.rows sweep.old.shape.cols sweep.old.shape.lanes (lane_of S.means S.ops sweep.old.shape) (steps_of S.means script.entry) (map answer answers.new) (held state.old) (held state.new) }
{
    for answer in answers.iter_mut() {
        *answer = without_place(sweep.step(script, state, work));
    }
}

/// Every step of a script, back. Each answers as on the way forward, so no answer is kept.
fn run_back<S: Scalar>(
    turned: &mut Turned,
    script: Script<S>,
    weights: &mut Parts<&mut [S]>,
    ws: &mut [S],
    work: &mut [S],
)
    requires all { turned.old.left ≡ length script.steps.now }
    requires room { first_of (weights_tests turned.old.shape (lengths (held weights.old)) (length ws.old) (length work.old)) ≡ 0 }
    ensures lent { SameLoan weights.old weights.new }
    ensures run { (ks : List ℕ) × RunBack S.ops turned.old.shape.rows turned.old.shape.cols turned.old.shape.lanes (lane_of S.means S.ops turned.old.shape) (steps_of S.means script.entry) ks (held weights.old) (held weights.new) }
{
    for _ in 0..script.steps.len() {
        let _ = turned.back(script, weights, ws, work);
    }
}

/// The tests of `run_script`, and what acceptance tells.
fn check_run(
    t: TableShape,
    count: usize,
    state: Parts<usize>,
    weights: Parts<usize>,
    sum: usize,
    work: usize,
    answers: usize,
) -> Result<(), Refusal>
    ensures verdict { answer result ≡ first_of (run_tests t count state weights sum work answers) }
    ensures state { OnOk result (first_of (memory_tests t state work) ≡ 0) }
    ensures weights { OnOk result (first_of (weights_tests t weights sum work) ≡ 0) }
    ensures answers { OnOk result (answers ≡ count) }
{
    check_memory(t, state, work)?;
    check_weights(t, weights, sum, work)?;
    if answers != count {
        return Err(Refusal::Memory);
    }
    Ok(())
}

/// Both runs of an accepted call.
fn run_both<S: Scalar>(
    t: TableShape,
    script: Script<S>,
    state: &mut Parts<&mut [S]>,
    weights: &mut Parts<&mut [S]>,
    ws: &mut [S],
    work: &mut [S],
    answers: &mut [Result<(), Refusal>],
)
    requires state { first_of (memory_tests t (lengths (held state.old)) (length work.old)) ≡ 0 }
    requires weights { first_of (weights_tests t (lengths (held weights.old)) (length ws.old) (length work.old)) ≡ 0 }
    requires answers { length answers.old ≡ length script.steps.now }
    ensures lent_state { SameLoan state.old state.new }
    ensures lent_weights { SameLoan weights.old weights.new }
    ensures forward { RunForward S.ops t.rows t.cols t.lanes (lane_of S.means S.ops t) (steps_of S.means script.entry) (map answer answers.new) (held state.old) (held state.new) }
    ensures back { RunBack S.ops t.rows t.cols t.lanes (lane_of S.means S.ops t) (steps_of S.means script.entry) (map answer answers.new) (held weights.old) (held weights.new) }
{
    let mut sweep = Sweep { shape: t, taken: 0 };
    run_forward(&mut sweep, script, state, work, answers);
    let mut turned = sweep.turn();
    run_back(&mut turned, script, weights, ws, work);
}

/// A whole script: every step forward on the state D, u and v, then every step back on the weights
/// E, p and q, latest first. Entry i of `answers` becomes the answer of step i: where that is a
/// refusal, neither run wrote anything for it.
///
/// The two laws stand in this contract. `transposed`: for every exact scalar, of every list of steps,
/// every state and all weights, in every lane, the state at the end paired with the weights is the
/// state at the beginning paired with the weights carried back; `paired` says so of this call.
/// `apart`: for every scalar, what a lane holds after a run comes from that lane alone, and which
/// steps are refused, with which numbers, comes from no lane.
///
/// Refuses 1 and 2 for the shape, 3 where a memory does not hold its shape, the work memory has
/// fewer than eight scalars or `answers` has not one entry for each step. A refusal leaves every
/// memory as it is. Work memory and w may end in any state.
pub fn run_script<S: Scalar>(
    t: TableShape,
    script: Script<S>,
    state: &mut Parts<&mut [S]>,
    weights: &mut Parts<&mut [S]>,
    ws: &mut [S],
    work: &mut [S],
    answers: &mut [Result<(), Refusal>],
) -> Result<(), Refusal>
    ensures lent_state { SameLoan state.old state.new }
    ensures lent_weights { SameLoan weights.old weights.new }
    ensures transposed { S.exact → RunsTransposed S.ops t.rows t.cols t.lanes (lane_of S.means S.ops t) }
    ensures apart { RunsApart S.ops t.rows t.cols t.lanes (lane_of S.means S.ops t) }
    ensures verdict { answer result ≡ first_of (run_tests t (length script.entry.steps.now) (lengths (held state.old)) (lengths (held weights.old)) (length ws.old) (length work.old) (length answers.old)) }
    ensures forward { OnOk result (RunForward S.ops t.rows t.cols t.lanes (lane_of S.means S.ops t) (steps_of S.means script.entry) (map answer answers.new) (held state.old) (held state.new)) }
    ensures back { OnOk result (RunBack S.ops t.rows t.cols t.lanes (lane_of S.means S.ops t) (steps_of S.means script.entry) (map answer answers.new) (held weights.old) (held weights.new)) }
    ensures paired { S.exact → OnOk result (PairedAlike S.means S.ops t (held state.old) (held state.new) (held weights.old) (held weights.new)) }
    ensures refused { OnErr result ((held state.new ≡ held state.old) × (held weights.new ≡ held weights.old) × (ws.new ≡ ws.old) × (work.new ≡ work.old) × (answers.new ≡ answers.old)) }
{
    laws_of_runs::<S>(t);
    check_run(
        t,
        script.steps.len(),
        state.lens(),
        weights.lens(),
        ws.len(),
        work.len(),
        answers.len(),
    )?;
    run_both(t, script, state, weights, ws, work, answers);
    Ok(())
}
