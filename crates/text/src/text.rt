//! The one call.
ghost use Rattle.std.specs.Prelude.{◌≡◌, not, ◌==◌, [], ◌∷◌, length, IfOk, OnErr};
ghost use Rattle.shape.specs.Refusals.{answer, first_of};
ghost use Rattle.text.specs.Answers.{Answered, PairingsAgree};

use crate::lines::put_fault;
use crate::program::put_program;
use reader::{Program, read};
use shape::Refusal;

/// For every text that is no fault, each lane's two pairings are the same number.
fn pairings_agree(text: &[u8])
    ensures { PairingsAgree text.now }
{}

/// The answer to a text, written into 65,536 bytes: how many bytes it has.
#[tactic(auto, using(crate::proofs::Rooms::fault_room))]
fn put_answer(text: &[u8], out: &mut [u8]) -> usize
    requires { length out.old ≡ 65536 }
    ensures { Answered text.now out.old out.new result }
{
    let mut program = Program::new();
    match read(text, &mut program) {
        Ok(()) => put_program(out, &program),
        Err(fault) => put_fault(out, 0, fault.line, fault.refusal.number()),
    }
}

/// Reads a text, runs its script in its ring, forward on its state and back on its weights, and writes
/// into `out` what each step answered and both pairings of each lane: how many bytes were written. What
/// is wrong with a text is written as a line, so no text is refused. The other bytes of `out` stay.
///
/// The promise is in the words of the text's grammar: `answer_of`. The law above it: in every lane of a
/// text that is no fault, the pairing of the state at the end with the weights is the same number as that
/// of the state at the beginning with the weights carried back.
///
/// Refuses 3 where `out` has not exactly 65,536 bytes, and writes nothing then.
pub fn run_text(text: &[u8], out: &mut [u8]) -> Result<usize, Refusal>
    ensures verdict { answer result ≡ first_of ((3, not (length out.old == 65536)) ∷ []) }
    ensures written { IfOk result (λ n. Answered text.now out.old out.new n) }
    ensures refused { OnErr result (out.new ≡ out.old) }
    ensures agree { PairingsAgree text.now }
{
    pairings_agree(text);
    if out.len() != 65536 {
        return Err(Refusal::Memory);
    }
    Ok(put_answer(text, out))
}
