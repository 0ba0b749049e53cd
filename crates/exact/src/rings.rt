//! A task run in one of the two rings, in memory of the call's own.
ghost use Rattle.std.specs.Prelude.{◌≡◌, ◌^◌, ◌<◌, ◌≤◌, map, length, OnOk, OnErr};
ghost use Rattle.scalar.specs.Modular.{wraps, residues};
ghost use Rattle.shape.specs.Refusals.{answer, first_of};
ghost use Rattle.state.specs.Memory.{held, lengths};
ghost use Rattle.exact.specs.Values.{wrap_value, residue_value};
ghost use Rattle.exact.specs.Tasks.{Solved, Workable, task_tests};

use crate::run::{check_task, run_in_ring};
use crate::task::Task;
use scalar::{Residue, Wrap};
use shape::Refusal;
use state::Parts;

/// The fronts of three slices, lent as the parts of a state or of weights.
fn lend<'a, S>(
    table: &'a mut [S],
    first: &'a mut [S],
    second: &'a mut [S],
    lens: Parts<usize>,
) -> Parts<&'a mut [S]>
    requires table { lens.table ≤ length table.old }
    requires first { lens.first ≤ length first.old }
    requires second { lens.second ≤ length second.old }
    ensures { lengths (held result) ≡ lens }
{
    Parts {
        table: &mut table[..lens.table],
        first: &mut first[..lens.first],
        second: &mut second[..lens.second],
    }
}

/// A task that passed its tests, in the ring of `$scalar`.
macro_rules! solve {
    ($scalar:ident, $task:ident, $answers:ident, $after:ident, $before:ident) => {{
        let (mut d, mut u, mut v) = ([$scalar(0); 1024], [$scalar(0); 1024], [$scalar(0); 1024]);
        let (mut e, mut p, mut q) = ([$scalar(0); 1024], [$scalar(0); 1024], [$scalar(0); 1024]);
        let (mut x, mut y, mut z) = ([$scalar(0); 1024], [$scalar(0); 1024], [$scalar(0); 1024]);
        let mut numbers = [$scalar(0); 1024];
        let mut work = [$scalar(0); 8];
        let mut ends = [$scalar(0); 4096];
        let mut beginnings = [$scalar(0); 4096];
        let mut state = lend(&mut d, &mut u, &mut v, $task.state.lens());
        let mut weights = lend(&mut e, &mut p, &mut q, $task.weights.lens());
        let mut given = lend(&mut x, &mut y, &mut z, $task.weights.lens());
        run_in_ring(
            $task,
            &mut numbers[..$task.script.numbers.len()],
            &mut state,
            &mut weights,
            &mut given,
            &mut work,
            &mut ends[..$task.shape.lanes],
            &mut beginnings[..$task.shape.lanes],
            $answers,
            $after,
            $before,
        )
    }};
}

/// A task that passed its tests, among the numbers modulo 2^64.
fn run_in_wrap(
    task: Task,
    answers: &mut [Result<(), Refusal>],
    after: &mut [u64],
    before: &mut [u64],
)
    requires { Workable task (length answers.old) (length after.old) (length before.old) }
    ensures { Solved wraps wrap_value (λ m. m.number) task.entry (map answer answers.new) after.new before.new }
{
    solve!(Wrap, task, answers, after, before)
}

/// A task that passed its tests, among the numbers modulo 2,147,483,647.
fn run_in_residue(
    task: Task,
    answers: &mut [Result<(), Refusal>],
    after: &mut [u64],
    before: &mut [u64],
)
    requires { Workable task (length answers.old) (length after.old) (length before.old) }
    ensures { Solved residues residue_value (λ m. m.number) task.entry (map answer answers.new) after.new before.new }
{
    solve!(Residue, task, answers, after, before)
}

/// A task among the numbers modulo 2^64: entry i of `answers` becomes the answer of step i, and entry b
/// of `after` and of `before` the number of lane b's pairing, of the state at the end with the weights
/// that are given, and of the state at the beginning with the weights carried back.
///
/// Refuses 1 and 2 for the shape, 3 where a memory does not hold its shape, `answers` has not one entry
/// for each step or `after` or `before` not one for each lane, 14 for more than 1,024 whole numbers in a
/// table, a vector or the script. A refusal leaves all three as they are.
pub fn solve_in_wrap(
    task: Task,
    answers: &mut [Result<(), Refusal>],
    after: &mut [u64],
    before: &mut [u64],
) -> Result<(), Refusal>
    ensures verdict { answer result ≡ first_of (task_tests task.entry (length answers.old) (length after.old) (length before.old)) }
    ensures accepted { OnOk result (Solved wraps wrap_value (λ m. m.number) task.entry (map answer answers.new) after.new before.new) }
    ensures refused { OnErr result ((answers.new ≡ answers.old) × (after.new ≡ after.old) × (before.new ≡ before.old)) }
{
    check_task(task, answers.len(), after.len(), before.len())?;
    run_in_wrap(task, answers, after, before);
    Ok(())
}

/// A task among the numbers modulo 2,147,483,647, else as `solve_in_wrap`.
pub fn solve_in_residue(
    task: Task,
    answers: &mut [Result<(), Refusal>],
    after: &mut [u64],
    before: &mut [u64],
) -> Result<(), Refusal>
    ensures verdict { answer result ≡ first_of (task_tests task.entry (length answers.old) (length after.old) (length before.old)) }
    ensures accepted { OnOk result (Solved residues residue_value (λ m. m.number) task.entry (map answer answers.new) after.new before.new) }
    ensures refused { OnErr result ((answers.new ≡ answers.old) × (after.new ≡ after.old) × (before.new ≡ before.old)) }
{
    check_task(task, answers.len(), after.len(), before.len())?;
    run_in_residue(task, answers, after, before);
    Ok(())
}
