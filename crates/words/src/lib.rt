//! The words of the text program: of its head, of cells and of steps.
#![tactic(auto)]

ghost use Rattle.std.specs.Prelude.{◌≡◌};
ghost use Rattle.words.specs.Words.{step_number, IsKindNumber, IsWord, word_for};

use shape::Refusal;
use std::str::from_utf8;

/// The six memories that a cell line may name: a table and two vectors, and their weights.
#[derive(Clone, Copy, Debug, PartialEq, Eq)]
pub enum Memory {
    D,
    E,
    U,
    V,
    P,
    Q,
}

/// The ten words of steps, each with its number from 0, in the order of the steps' table.
#[derive(Clone, Copy, Debug, PartialEq, Eq)]
pub enum StepWord {
    Update = 0,
    Cols = 1,
    SumCol = 2,
    AddCol = 3,
    SetCol = 4,
    Axpy = 5,
    Copy = 6,
    Scale = 7,
    Gather = 8,
    Scatter = 9,
}

impl StepWord {
    /// The number of the kind of step, from 0 to 9.
    pub fn number(self) -> u8
        ensures { result ≡ step_number self }
    {
        self as u8
    }
}

/// The first field of a line.
#[derive(Clone, Copy, Debug, PartialEq, Eq)]
pub enum Word {
    Ring,
    Size,
    Cell(Memory),
    Step(StepWord),
}

/// The word that a text is, if any.
pub fn word_of(text: &str) -> Option<Word>
    ensures { IsWord text.now result }
{
    match text {
        "ring" => Some(Word::Ring),
        "size" => Some(Word::Size),
        "d" => Some(Word::Cell(Memory::D)),
        "e" => Some(Word::Cell(Memory::E)),
        "u" => Some(Word::Cell(Memory::U)),
        "v" => Some(Word::Cell(Memory::V)),
        "p" => Some(Word::Cell(Memory::P)),
        "q" => Some(Word::Cell(Memory::Q)),
        "update" => Some(Word::Step(StepWord::Update)),
        "cols" => Some(Word::Step(StepWord::Cols)),
        "sumcol" => Some(Word::Step(StepWord::SumCol)),
        "addcol" => Some(Word::Step(StepWord::AddCol)),
        "setcol" => Some(Word::Step(StepWord::SetCol)),
        "axpy" => Some(Word::Step(StepWord::Axpy)),
        "copy" => Some(Word::Step(StepWord::Copy)),
        "scale" => Some(Word::Step(StepWord::Scale)),
        "gather" => Some(Word::Step(StepWord::Gather)),
        "scatter" => Some(Word::Step(StepWord::Scatter)),
        _ => None,
    }
}

/// The word that the bytes spell, if any. Bytes that are not UTF-8 spell none.
#[tactic(auto, using(crate::proofs::Spellings::by_word, crate::proofs::Spellings::no_text))]
pub fn read_word(bytes: &[u8]) -> Option<Word>
    ensures { result ≡ word_for bytes.now }
{
    match from_utf8(bytes) {
        Ok(text) => word_of(text),
        Err(_) => None,
    }
}

/// The number of the kind of step that a word names, from 0 to 9; every other text is malformed.
pub fn kind_number(word: &str) -> Result<u8, Refusal>
    ensures { IsKindNumber word.now result }
{
    match word {
        "update" => Ok(0),
        "cols" => Ok(1),
        "sumcol" => Ok(2),
        "addcol" => Ok(3),
        "setcol" => Ok(4),
        "axpy" => Ok(5),
        "copy" => Ok(6),
        "scale" => Ok(7),
        "gather" => Ok(8),
        "scatter" => Ok(9),
        _ => Err(Refusal::Malformed),
    }
}
