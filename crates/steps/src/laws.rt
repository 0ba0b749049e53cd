//! The two laws of runs, stated for every scalar and as they stand for those of this library.
ghost use Rattle.std.specs.Float.{binary64, binary32};
ghost use Rattle.scalar.specs.Floats.{rounded};
ghost use Rattle.scalar.specs.Modular.{wraps, residues};
ghost use Rattle.scalar.specs.Pairs.{paired};
ghost use Rattle.steps.specs.Runs.{Transposed, Apart};

use scalar::{Pair, Residue, Scalar, Wrap};

/// For every exact scalar the backward run is the transpose of the forward run: the state at the
/// end, paired with any weights, gives what the state at the beginning gives with the weights
/// carried back, latest step first.
pub fn runs_are_transposed<S: Scalar>()
    ensures { S.exact → Transposed S.ops }
{}

/// For every scalar, states alike in a lane are alike in it after any run, and weights alike in a
/// lane are carried back alike.
pub fn lanes_stay_apart<S: Scalar>()
    ensures { Apart S.ops }
{}

/// The exact scalars of this library: numbers modulo 2^64 and modulo 2^31 − 1, and pairs of a value
/// and a slope over an exact scalar.
pub fn exact_runs_are_transposed()
    ensures wrap { Transposed wraps }
    ensures residue { Transposed residues }
    ensures pair { Transposed (paired residues) }
{
    runs_are_transposed::<Wrap>();
    runs_are_transposed::<Residue>();
    runs_are_transposed::<Pair<Residue>>();
}

/// Floats are not exact, and their lanes stay apart all the same.
pub fn float_lanes_stay_apart()
    ensures f64 { Apart (rounded binary64) }
    ensures f32 { Apart (rounded binary32) }
{
    lanes_stay_apart::<f64>();
    lanes_stay_apart::<f32>();
}
