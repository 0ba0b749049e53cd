//! The fourteen refusals, each with its number and its words.
ghost use Rattle.std.specs.Prelude.{◌≡◌};
ghost use Rattle.shape.specs.Refusals.{number_of, words_of};

use std::fmt;

/// Why a call was refused, each with its number, in the order of checking.
#[derive(Clone, Copy, PartialEq, Eq, Debug)]
pub enum Refusal {
    NoLanes = 1,
    TooLarge = 2,
    Memory = 3,
    NoColumn = 4,
    TooMany = 5,
    Numbers = 6,
    Counts = 7,
    Lanes = 8,
    ListLength = 9,
    Index = 10,
    RootsDiffer = 11,
    NoStep = 12,
    Malformed = 13,
    TextLimit = 14,
}

impl Refusal {
    /// The number from 1 to 14; 0 stands for acceptance wherever numbers are written.
    pub fn number(self) -> u8
        ensures { result ≡ number_of self }
    {
        self as u8
    }
}

impl fmt::Display for Refusal {
    ghost output = { λ x. words_of x };

    fn fmt<W: fmt::Write>(&self, f: &mut fmt::Formatter<W>) -> fmt::Result {
        f.write_str(match self {
            Refusal::NoLanes => "a shape has no lanes",
            Refusal::TooLarge => "a shape exceeds its limits",
            Refusal::Memory => "memory does not fit its shape",
            Refusal::NoColumn => "a column or range is outside the table",
            Refusal::TooMany => "too many columns or too high an order",
            Refusal::Numbers => "not the numbers that are needed",
            Refusal::Counts => "row or column counts differ",
            Refusal::Lanes => "lane counts do not broadcast",
            Refusal::ListLength => "a list has not its length",
            Refusal::Index => "an index is outside",
            Refusal::RootsDiffer => "the lanes' roots differ",
            Refusal::NoStep => "no step is left",
            Refusal::Malformed => "a line has none of the stated forms",
            Refusal::TextLimit => "a text exceeds its limits",
        })
    }
}
