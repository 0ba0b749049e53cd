//! The lines of a text, one after the other, each judged where it stands.
ghost use Rattle.std.specs.Prelude.{◌≡◌, ℕ, ◌+◌, ◌<◌, ◌≤◌, List, [], length, take, drop, ℤ, Some};
ghost use Rattle.lex.specs.Lines.{fields, more};
ghost use Rattle.lex.specs.Numbers.{all, plain_of, value_of};
ghost use Rattle.shape.specs.Refusals.{answer, first_of};
ghost use Rattle.shape.specs.Shapes.{cell as cell_of};
ghost use Rattle.reader.specs.Grammar.{Line, ring_line, size_line, cell_line, list_line, value_line, step_line, line_of, place_fields, plain_fields};
ghost use Rattle.reader.specs.Grammar.Line.{step};
ghost use Rattle.reader.specs.Said.{memory_number, memory_shape};
ghost use Rattle.reader.specs.Judged.{judged, fault_of, inside};
ghost use Rattle.reader.specs.FirstFault.{FirstFault};
ghost use Rattle.reader.specs.Held.{Held, Followed, Ahead, IsPlace, base};

use crate::forms::{
    Cell, is_table, kind_of, plain_fields, read_cell, read_ring, read_size, takes, takes_list,
};
use crate::program::{
    Fault, MAX_BYTES, MAX_CELLS, MAX_INDICES, MAX_NUMBERS, MAX_STEPS, Program, Ring,
};
use lex::{bytes_before, read_fields};
use shape::check::{no_lanes, too_large};
use shape::{Column, Refusal, TableShape};
use state::StepRecord;
use steps::Kind;
use words::{Memory, StepWord, Word, read_word};

/// The shape of one of the memories of a state or of its weights.
fn memory_shape(t: TableShape, memory: Memory) -> TableShape
    ensures { result ≡ memory_shape t memory }
{
    if is_table(memory) {
        t
    } else {
        Column::vector(t.rows, t.lanes).of
    }
}

/// The number of a memory.
fn memory_number(memory: Memory) -> usize
    ensures { result ≡ memory_number memory }
{
    match memory {
        Memory::D => 0,
        Memory::E => 1,
        Memory::U => 2,
        Memory::V => 3,
        Memory::P => 4,
        Memory::Q => 5,
    }
}

impl Program {
    /// A program of no lines.
    pub fn new() -> Program
        ensures { Held [] result }
    {
        let none = StepRecord {
            kind: Kind::Copy,
            numbers_at: 0,
            number_count: 0,
            list_at: 0,
            list_count: 0,
        };
        Program {
            ring: Ring::Wrap,
            shape: TableShape {
                rows: 0,
                cols: 0,
                lanes: 1,
            },
            cells: [0; 6144],
            steps: [none; 64],
            taken: 0,
            numbers: [0; 1024],
            used: 0,
            indices: [0; 1024],
            listed: 0,
        }
    }

    /// A line of the ring. Of each kind of line: `before` is how many lines stand before it.
    fn ring_line(&mut self, before: usize, rest: &[u8]) -> Result<(), Refusal>
        ensures { (ls : List Line) → Held ls self.old → length ls ≡ before → Followed ls (ring_line (more rest.now)) result self.new }
    {
        let Some(ring) = read_ring(rest) else {
            return Err(Refusal::Malformed);
        };
        if before != 0 {
            return Err(Refusal::Malformed);
        }
        self.ring = ring;
        Ok(())
    }

    /// A line of the size.
    fn size_line(&mut self, before: usize, rest: &[u8]) -> Result<(), Refusal>
        ensures { (ls : List Line) → Held ls self.old → length ls ≡ before → Followed ls (size_line (all plain_of (more rest.now))) result self.new }
    {
        let Some(t) = read_size(rest) else {
            return Err(Refusal::Malformed);
        };
        if no_lanes(t) {
            return Err(Refusal::NoLanes);
        }
        if too_large(t) {
            return Err(Refusal::TooLarge);
        }
        if before != 1 {
            return Err(Refusal::Malformed);
        }
        if t.rows * t.cols * t.lanes > MAX_CELLS || t.rows * t.lanes > MAX_CELLS {
            return Err(Refusal::TextLimit);
        }
        self.shape = t;
        Ok(())
    }

    /// Where a cell lies among the six memories; none if it lies outside the shape.
    fn place_of(&self, memory: Memory, x: Cell) -> Option<usize>
        ensures { let t = memory_shape self.now.shape memory in IsPlace result (inside t x.lane x.col x.row) (base memory) (cell_of t x.lane x.col x.row) }
    {
        let t = memory_shape(self.shape, memory);
        if x.lane >= t.lanes || x.col >= t.cols || x.row >= t.rows {
            return None;
        }
        Some(memory_number(memory) * MAX_CELLS + ((x.lane * t.cols + x.col) * t.rows + x.row))
    }

    /// A line of a cell: outside the shape it is a fault of its own, also behind a step.
    fn cell_line(&mut self, before: usize, memory: Memory, rest: &[u8]) -> Result<(), Refusal>
        ensures { (ls : List Line) → Held ls self.old → length ls ≡ before → Followed ls (cell_line memory (all plain_of (take (place_fields memory) (more rest.now))) (all value_of (drop (place_fields memory) (more rest.now)))) result self.new }
    {
        let Some(x) = read_cell(memory, rest) else {
            return Err(Refusal::Malformed);
        };
        if before < 2 {
            return Err(Refusal::Malformed);
        }
        let Some(k) = self.place_of(memory, x) else {
            return Err(Refusal::Index);
        };
        if self.taken > 0 {
            return Err(Refusal::Malformed);
        }
        self.cells[k] = x.value;
        Ok(())
    }

    /// Takes a step into the script; its numbers and indices lie behind the others.
    fn add_step(
        &mut self,
        before: usize,
        kind: Kind,
        number_count: usize,
        list_count: usize,
    ) -> Result<(), Refusal>
        ensures { (ls : List Line) (ns : List ℤ) (is : List ℕ) → Held ls self.old → length ls ≡ before → Ahead self.old ns is number_count list_count → Followed ls (Some (step kind ns is)) result self.new }
    {
        if before < 2 {
            return Err(Refusal::Malformed);
        }
        if self.taken >= MAX_STEPS
            || number_count > MAX_NUMBERS - self.used
            || list_count > MAX_INDICES - self.listed
        {
            return Err(Refusal::TextLimit);
        }
        self.steps[self.taken] = StepRecord {
            kind,
            numbers_at: self.used,
            number_count,
            list_at: self.listed,
            list_count,
        };
        self.taken += 1;
        self.used += number_count;
        self.listed += list_count;
        Ok(())
    }

    /// A line of a step with a list.
    fn list_line(&mut self, before: usize, word: StepWord, rest: &[u8]) -> Result<(), Refusal>
        ensures { (ls : List Line) → Held ls self.old → length ls ≡ before → Followed ls (list_line word (all plain_of (more rest.now))) result self.new }
    {
        let at = self.listed;
        let Some((count, _)) = read_fields(rest, rest.len(), &mut self.indices, at) else {
            return Err(Refusal::Malformed);
        };
        self.add_step(before, kind_of(word, 0, 0), 0, count)
    }

    /// A line of a step with plain numbers and values.
    fn value_line(&mut self, before: usize, word: StepWord, rest: &[u8]) -> Result<(), Refusal>
        ensures { (ls : List Line) → Held ls self.old → length ls ≡ before → Followed ls (value_line word (all plain_of (take (plain_fields word) (more rest.now))) (all value_of (drop (plain_fields word) (more rest.now)))) result self.new }
    {
        let mut plain = [0usize; 2];
        let want = plain_fields(word);
        let Some((front, tail)) = read_fields(rest, want, &mut plain, 0) else {
            return Err(Refusal::Malformed);
        };
        if front != want {
            return Err(Refusal::Malformed);
        }
        let at = self.used;
        let Some((count, _)) = read_fields(tail, tail.len(), &mut self.numbers, at) else {
            return Err(Refusal::Malformed);
        };
        if !takes(word, count) {
            return Err(Refusal::Malformed);
        }
        self.add_step(before, kind_of(word, plain[0], plain[1]), count, 0)
    }

    /// A line of a step.
    fn step_line(&mut self, before: usize, word: StepWord, rest: &[u8]) -> Result<(), Refusal>
        ensures { (ls : List Line) → Held ls self.old → length ls ≡ before → Followed ls (step_line word (more rest.now)) result self.new }
    {
        if takes_list(word) {
            self.list_line(before, word, rest)
        } else {
            self.value_line(before, word, rest)
        }
    }

    /// A line of any word.
    fn line(&mut self, before: usize, line: &[u8]) -> Result<(), Refusal>
        ensures { (ls : List Line) → Held ls self.old → length ls ≡ before → Followed ls (line_of (fields line.now)) result self.new }
    {
        let k = bytes_before(line, b'\t');
        let rest = &line[k..];
        let Some(word) = read_word(&line[..k]) else {
            return Err(Refusal::Malformed);
        };
        match word {
            Word::Ring => self.ring_line(before, rest),
            Word::Size => self.size_line(before, rest),
            Word::Cell(memory) => self.cell_line(before, memory, rest),
            Word::Step(step) => self.step_line(before, step, rest),
        }
    }
}

/// What is behind a first byte, as the newline that ends a line.
fn behind_first(text: &[u8]) -> &[u8]
    ensures { result.now ≡ drop 1 text.now }
{
    match text {
        [_, tail @ ..] => tail,
        [] => text,
    }
}

/// Reads a text of at most 16,384 bytes: its lawful lines up to the first fault are held, whatever
/// the program held before.
pub fn read(text: &[u8], into: &mut Program) -> Result<(), Fault>
    ensures fault { fault_of result ≡ (judged text.now).fault }
    ensures held { Held (judged text.now).lawful into.new }
    ensures first { length text.now ≤ 16384 → FirstFault text.now (judged text.now) }
{
    *into = Program::new();
    if text.len() > MAX_BYTES {
        return Err(Fault {
            line: 0,
            refusal: Refusal::TextLimit,
        });
    }
    let mut rest = text;
    let mut count: usize = 0;
    while !rest.is_empty() {
        let k = bytes_before(rest, b'\n');
        if let Err(refusal) = into.line(count, &rest[..k]) {
            return Err(Fault {
                line: count + 1,
                refusal,
            });
        }
        count += 1;
        rest = behind_first(&rest[k..]);
    }
    if count < 2 {
        return Err(Fault {
            line: count + 1,
            refusal: Refusal::Malformed,
        });
    }
    Ok(())
}
