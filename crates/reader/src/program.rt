//! What a text says, in memory of its own, and what is wrong with one.
ghost use Rattle.std.specs.Prelude.{◌*◌, ◌≤◌};
ghost use Rattle.shape.specs.Shapes.{Fits, cells as cell_count};

use shape::{Refusal, TableShape};
use state::StepRecord;

/// The most bytes of a text.
pub const MAX_BYTES: usize = 16384;
/// The most cells of a table or a vector.
pub const MAX_CELLS: usize = 1024;
/// The most steps of a script.
pub const MAX_STEPS: usize = 64;
/// The most numbers of all its steps together.
pub const MAX_NUMBERS: usize = 1024;
/// The most indices of all its lists together.
pub const MAX_INDICES: usize = 1024;

/// The scalars of a text: numbers modulo 2^64, or modulo 2,147,483,647.
#[derive(Clone, Copy, Debug, PartialEq, Eq)]
pub enum Ring {
    Wrap,
    Residue,
}

/// The line of a text's first fault, from 1, and its refusal; line 0 for the text as a whole.
#[derive(Clone, Copy, Debug, PartialEq)]
pub struct Fault {
    pub line: usize,
    pub refusal: Refusal,
}

/// What the lines of a text say. The cells of the six memories D, E, u, v, p and q lie in this order,
/// each memory with room for 1,024 values. The first `taken` steps are the script's, the first `used`
/// numbers and the first `listed` indices are theirs.
#[derive(Drop)]
pub struct Program {
    pub ring: Ring,
    pub shape: TableShape,
    pub cells: [i64; 6144],
    pub steps: [StepRecord; 64],
    pub taken: usize,
    pub numbers: [i64; 1024],
    pub used: usize,
    pub indices: [usize; 1024],
    pub listed: usize,
    ghost lawful: { Fits shape (cell_count shape) },
    ghost table_fits: { cell_count shape ≤ 1024 },
    ghost vector_fits: { shape.rows * shape.lanes ≤ 1024 },
    ghost steps_fit: { taken ≤ 64 },
    ghost numbers_fit: { used ≤ 1024 },
    ghost indices_fit: { listed ≤ 1024 },
}
