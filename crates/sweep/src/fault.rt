//! Why a step of a sweep was refused, and where.
ghost use Rattle.std.specs.Prelude.{◌≡◌};
ghost use Rattle.shape.specs.Refusals.{answer};
ghost use Rattle.sweep.specs.Sweeps.{answered};

use shape::Refusal;

/// A refusal with the place of its step in the script, from 0.
#[derive(Clone, Copy, PartialEq, Debug)]
pub struct StepFault {
    pub refusal: Refusal,
    pub place: usize,
}

/// A step's answer without its place.
pub fn without_place(taken: Result<(), StepFault>) -> Result<(), Refusal>
    ensures { answer result ≡ answered taken }
{
    taken.map_err(|fault| fault.refusal)
}

/// The number of a step's answer, 0 where it was accepted.
pub fn answer_number(answer: Result<(), StepFault>) -> u8
    ensures { result ≡ answered answer }
{
    without_place(answer).map_or_else(Refusal::number, |()| 0)
}
