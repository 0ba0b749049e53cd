//! A task run in one ring, in memory lent for it.
ghost use Rattle.std.specs.Prelude.{◌≡◌, ◌≤◌, map, length, IsOk, OnOk, OnErr};
ghost use Rattle.shape.specs.Refusals.{answer, first_of};
ghost use Rattle.state.specs.Memory.{held, shown, SameLoan, lengths};
ghost use Rattle.sweep.specs.Sweeps.{steps_of};
ghost use Rattle.sweep.specs.Scripts.{run_tests};
ghost use Rattle.exact.specs.Tasks.{stored_all, Ran, task_tests, Workable};

use crate::entry::{Entry, fill, number_all};
use crate::task::Task;
use pairing::pairings;
use shape::Refusal;
use state::parts::check_parts;
use state::{Parts, Script};
use sweep::run_script;

/// The tests of a task and of the room for its answers and pairings, and what acceptance tells.
pub(crate) fn check_task(
    task: Task,
    answers: usize,
    after: usize,
    before: usize,
) -> Result<(), Refusal>
    ensures verdict { answer result ≡ first_of (task_tests task.entry answers after before) }
    ensures lawful { OnOk result (Workable task.entry answers after before) }
{
    check_parts(task.shape, task.state.lens())?;
    check_parts(task.shape, task.weights.lens())?;
    let lanes = task.shape.lanes;
    if answers != task.script.steps.len() || after != lanes || before != lanes {
        return Err(Refusal::Memory);
    }
    if task.state.table.len() > 1024
        || task.state.first.len() > 1024
        || task.script.numbers.len() > 1024
    {
        return Err(Refusal::TextLimit);
    }
    Ok(())
}

/// Whole numbers into the parts of a memory.
fn fill_parts<S: Entry>(to: &mut Parts<&mut [S]>, values: Parts<&[i64]>)
    requires { lengths (held to.old) ≡ lengths (shown values) }
    ensures lent { SameLoan to.old to.new }
    ensures filled { held to.new ≡ stored_all S.stored (shown values.entry) }
{
    fill(to.table, values.table);
    fill(to.first, values.first);
    fill(to.second, values.second);
}

/// Both runs of a task that passed its tests, and the pairings of its lanes. The memories hold as
/// much as the task asks; the third serves the way back for sums, until the weights are read again.
pub(crate) fn run_in_ring<S: Entry>(
    task: Task,
    numbers: &mut [S],
    state: &mut Parts<&mut [S]>,
    weights: &mut Parts<&mut [S]>,
    given: &mut Parts<&mut [S]>,
    work: &mut [S],
    ends: &mut [S],
    beginnings: &mut [S],
    answers: &mut [Result<(), Refusal>],
    after: &mut [u64],
    before: &mut [u64],
)
    requires workable { Workable task (length answers.old) (length after.old) (length before.old) }
    requires numbers { length numbers.old ≡ length task.script.numbers.now }
    requires state { lengths (held state.old) ≡ lengths (shown task.state) }
    requires weights { lengths (held weights.old) ≡ lengths (shown task.weights) }
    requires given { lengths (held given.old) ≡ lengths (shown task.weights) }
    requires work { 8 ≤ length work.old }
    requires ends { length ends.old ≡ task.shape.lanes }
    requires beginnings { length beginnings.old ≡ task.shape.lanes }
    ensures ran { Ran S.ops S.means task.entry.shape (steps_of (λ v. S.means (S.stored v)) task.entry.script) (stored_all S.stored (shown task.entry.state)) (stored_all S.stored (shown task.entry.weights)) (map answer answers.new) ends.new beginnings.new }
    ensures after { after.new ≡ map S.meant ends.new }
    ensures before { before.new ≡ map S.meant beginnings.new }
{
    let t = task.shape;
    fill(numbers, task.script.numbers);
    fill_parts(state, task.state);
    fill_parts(weights, task.weights);
    let script = Script {
        steps: task.script.steps,
        numbers: &*numbers,
        indices: task.script.indices,
    };
    // What is called accepts, since the task passed its tests.
    let _ = run_script(t, script, state, weights, given.first, work, answers);
    fill_parts(given, task.weights);
    let _ = pairings(t, state.shared(), given.shared(), ends);
    fill_parts(state, task.state);
    let _ = pairings(t, state.shared(), weights.shared(), beginnings);
    number_all(after, ends);
    number_all(before, beginnings);
}
