//! A program that was read, as a task: slices of what it holds.
ghost use Rattle.std.specs.Prelude.{◌≡◌, ◌≤◌, List, length};
ghost use Rattle.exact.specs.Tasks.{Workable};
ghost use Rattle.reader.specs.Grammar.{Line};
ghost use Rattle.reader.specs.Said.{ring_in};
ghost use Rattle.reader.specs.Held.{Held, base};
ghost use Rattle.text.specs.Lines.{Written};
ghost use Rattle.text.specs.Answers.{script_lines};
ghost use Rattle.text.specs.Solutions.{IsTaskOf, values_of};

use crate::solution::put_solution;
use exact::Task;
use reader::Program;
use state::{Parts, Script};
use words::Memory;

/// Where the values of a memory begin.
fn start_of(memory: Memory) -> usize
    ensures { result ≡ base memory }
{
    match memory {
        Memory::D => 0,
        Memory::E => 1024,
        Memory::U => 2048,
        Memory::V => 3072,
        Memory::P => 4096,
        Memory::Q => 5120,
    }
}

/// The first values of a memory.
fn values(program: &Program, memory: Memory, count: usize) -> &[i64]
    requires { count ≤ 1024 }
    ensures values { result.now ≡ values_of program.now memory count }
    ensures count { length result.now ≡ count }
{
    let from = start_of(memory);
    &program.cells[from..from + count]
}

/// The program's script, and the values of its memories, as many as its shape has.
fn task_of(program: &Program) -> Task<'_>
    ensures slices { IsTaskOf program.now result }
    ensures workable { Workable result program.now.taken program.now.shape.lanes program.now.shape.lanes }
{
    let shape = program.shape;
    let cells = shape.rows * shape.cols * shape.lanes;
    let rows = shape.rows * shape.lanes;
    Task {
        shape,
        script: Script {
            steps: &program.steps[..program.taken],
            numbers: &program.numbers[..program.used],
            indices: &program.indices[..program.listed],
        },
        state: Parts {
            table: values(program, Memory::D, cells),
            first: values(program, Memory::U, rows),
            second: values(program, Memory::V, rows),
        },
        weights: Parts {
            table: values(program, Memory::E, cells),
            first: values(program, Memory::P, rows),
            second: values(program, Memory::Q, rows),
        },
    }
}

/// The program's script run in its ring, and what came of it written.
pub(crate) fn put_program(out: &mut [u8], program: &Program) -> usize
    requires { length out.old ≡ 65536 }
    ensures { (ls : List Line) → Held ls program.now → Written out.old out.new 0 (script_lines (ring_in ls) ls) result }
{
    put_solution(
        out,
        program.ring,
        task_of(program),
        &mut [Ok(()); 64][..program.taken],
        &mut [0; 64][..program.taken],
        &mut [0; 4096][..program.shape.lanes],
        &mut [0; 4096][..program.shape.lanes],
    )
}
