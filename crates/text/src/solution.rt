//! A task solved in its ring, and the lines that are written for it.
ghost use Rattle.std.specs.Prelude.{◌≡◌, ◌≤◌, map, length, OnOk};
ghost use Rattle.shape.specs.Refusals.{answer, first_of};
ghost use Rattle.exact.specs.Tasks.{task_tests, Workable};
ghost use Rattle.text.specs.Lines.{Written};
ghost use Rattle.text.specs.Solutions.{SolvedIn, task_lines};

use crate::lines::{put_lanes, put_steps};
use exact::Task;
use exact::rings::{solve_in_residue, solve_in_wrap};
use reader::Ring;
use shape::Refusal;

/// A task in the ring that is named: the answers of its steps and the pairings of its lanes.
fn solve(
    ring: Ring,
    task: Task,
    answers: &mut [Result<(), Refusal>],
    after: &mut [u64],
    before: &mut [u64],
) -> Result<(), Refusal>
    ensures verdict { answer result ≡ first_of (task_tests task.entry (length answers.old) (length after.old) (length before.old)) }
    ensures accepted { OnOk result (SolvedIn ring task.entry (map answer answers.new) after.new before.new) }
{
    match ring {
        Ring::Wrap => solve_in_wrap(task, answers, after, before),
        Ring::Residue => solve_in_residue(task, answers, after, before),
    }
}

/// The numbers of answers, 0 for acceptance.
fn number_answers(numbers: &mut [u8], answers: &[Result<(), Refusal>])
    requires { length numbers.old ≡ length answers.now }
    ensures { numbers.new ≡ map answer answers.now }
{
    for (place, number) in numbers.iter_mut().enumerate() {
        *number = match answers[place] {
            Ok(()) => 0,
            Err(refusal) => refusal.number(),
        };
    }
}

/// A task that passes its tests, solved in memory lent for its answers and its pairings, and written:
/// its steps with their numbers, then its lanes.
pub(crate) fn put_solution(
    out: &mut [u8],
    ring: Ring,
    task: Task,
    answers: &mut [Result<(), Refusal>],
    numbers: &mut [u8],
    after: &mut [u64],
    before: &mut [u64],
) -> usize
    requires workable { Workable task (length answers.old) (length after.old) (length before.old) }
    requires steps { length answers.old ≤ 64 }
    requires numbers { length numbers.old ≡ length answers.old }
    requires room { length out.old ≡ 65536 }
    ensures { Written out.old out.new 0 (task_lines ring task.entry) result }
{
    // It accepts, since the task passes its tests.
    let _ = solve(ring, task, answers, after, before);
    number_answers(numbers, answers);
    let here = put_steps(out, 0, numbers);
    put_lanes(out, here, after, before)
}
