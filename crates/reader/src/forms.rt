//! The forms of lines: what the fields behind a word spell together.
ghost use Rattle.std.specs.Prelude.{◌≡◌, ◌≤◌, List, [], ◌∷◌, length, take, drop};
ghost use Rattle.std.specs.Option.{option_map};
ghost use Rattle.lex.specs.Lines.{more};
ghost use Rattle.lex.specs.Numbers.{all, plain_of, value_of};
ghost use Rattle.reader.specs.Grammar.{IsRing, ring_line, size_line, cell_line, cell_at, is_table, place_fields, plain_fields, takes, takes_list, kind_of};
ghost use Rattle.reader.specs.Grammar.Line.{ring, size, cell};

use crate::program::Ring;
use lex::{bytes_before, read_fields};
use shape::TableShape;
use std::str::from_utf8;
use steps::Kind;
use words::{Memory, StepWord};

/// The place and the value of a cell; a vector's has the column 0.
#[derive(Clone, Copy)]
pub struct Cell {
    pub lane: usize,
    pub col: usize,
    pub row: usize,
    pub value: i64,
}

/// The ring of a name.
fn ring_of(name: &str) -> Option<Ring>
    ensures { IsRing name.now result }
{
    match name {
        "wrap" => Some(Ring::Wrap),
        "residue" => Some(Ring::Residue),
        _ => None,
    }
}

/// The ring that the one field names.
#[tactic(auto, using(crate::proofs::Fields::ring_named, crate::proofs::Fields::ring_no_text, crate::proofs::Fields::ring_two))]
pub fn read_ring(rest: &[u8]) -> Option<Ring>
    ensures { option_map ring result ≡ ring_line (more rest.now) }
{
    let [b'\t', name @ ..] = rest else {
        return None;
    };
    if bytes_before(name, b'\t') < name.len() {
        return None;
    }
    match from_utf8(name) {
        Ok(text) => ring_of(text),
        Err(_) => None,
    }
}

/// Rows, columns and lanes.
pub fn read_size(rest: &[u8]) -> Option<TableShape>
    ensures { option_map (λ t. size t.rows t.cols t.lanes) result ≡ size_line (all plain_of (more rest.now)) }
{
    let mut sizes = [0usize; 3];
    let (count, _) = read_fields(rest, rest.len(), &mut sizes, 0)?;
    if count != 3 {
        return None;
    }
    Some(TableShape {
        rows: sizes[0],
        cols: sizes[1],
        lanes: sizes[2],
    })
}

/// The memories that are tables.
pub fn is_table(memory: Memory) -> bool
    ensures { result ≡ is_table memory }
{
    matches!(memory, Memory::D | Memory::E)
}

/// How many fields a cell's place has.
fn place_fields(memory: Memory) -> usize
    ensures is { result ≡ place_fields memory }
    ensures few { result ≤ 3 }
{
    if is_table(memory) { 3 } else { 2 }
}

/// The cell of up to three place fields.
fn cell_at(memory: Memory, first: usize, second: usize, third: usize, value: i64) -> Cell
    ensures { cell memory result.lane result.col result.row result.value ≡ cell_at memory (first ∷ second ∷ third ∷ []) value }
{
    if is_table(memory) {
        Cell {
            lane: first,
            col: second,
            row: third,
            value,
        }
    } else {
        Cell {
            lane: first,
            col: 0,
            row: second,
            value,
        }
    }
}

/// The place and the value of a cell.
pub fn read_cell(memory: Memory, rest: &[u8]) -> Option<Cell>
    ensures { option_map (λ x. cell memory x.lane x.col x.row x.value) result ≡ cell_line memory (all plain_of (take (place_fields memory) (more rest.now))) (all value_of (drop (place_fields memory) (more rest.now))) }
{
    let mut place = [0usize; 3];
    let mut value = [0i64; 1];
    let want = place_fields(memory);
    let (front, tail) = read_fields(rest, want, &mut place, 0)?;
    if front != want {
        return None;
    }
    let (count, _) = read_fields(tail, tail.len(), &mut value, 0)?;
    if count != 1 {
        return None;
    }
    Some(cell_at(memory, place[0], place[1], place[2], value[0]))
}

/// The words that a list follows.
pub fn takes_list(word: StepWord) -> bool
    ensures { result ≡ takes_list word }
{
    matches!(word, StepWord::Gather | StepWord::Scatter)
}

/// How many plain numbers a step begins with.
pub fn plain_fields(word: StepWord) -> usize
    ensures is { result ≡ plain_fields word }
    ensures few { result ≤ 2 }
{
    match word {
        StepWord::SumCol => 2,
        StepWord::Update | StepWord::Cols | StepWord::AddCol | StepWord::SetCol => 1,
        _ => 0,
    }
}

/// Whether n values may follow them.
pub fn takes(word: StepWord, n: usize) -> bool
    ensures { result ≡ takes word n }
{
    match word {
        StepWord::Cols => true,
        StepWord::SumCol => n >= 2,
        StepWord::Axpy => n == 2,
        StepWord::Scale => n == 1,
        _ => n == 0,
    }
}

/// The kind of step of a word and its plain numbers, as many of the two as it has.
pub fn kind_of(word: StepWord, first: usize, second: usize) -> Kind
    ensures { result ≡ kind_of word (first ∷ second ∷ []) }
{
    match word {
        StepWord::Update => Kind::Update { order: first },
        StepWord::Cols => Kind::Cols { count: first },
        StepWord::SumCol => Kind::SumCol {
            start: first,
            end: second,
        },
        StepWord::AddCol => Kind::AddCol { column: first },
        StepWord::SetCol => Kind::SetCol { column: first },
        StepWord::Axpy => Kind::Axpy,
        StepWord::Copy => Kind::Copy,
        StepWord::Scale => Kind::Scale,
        StepWord::Gather => Kind::Gather,
        StepWord::Scatter => Kind::Scatter,
    }
}
