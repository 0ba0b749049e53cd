//! Small square matrices: numbers read by rows or by columns, or the constant matrix of the
//! update's transpose.
ghost use Rattle.std.specs.Prelude.{◌≡◌, ◌+◌, ◌*◌, ◌<◌, ◌≤◌, true, map, length};
ghost use Rattle.differences.specs.Rows.{transposed};
ghost use Rattle.differences.specs.Matrices.{Small, entry_of, ruled, sign, signed};

use scalar::Scalar;

/// The matrix t of the update's transpose for the orders 0 to 5: entry (j, l) of order o is
/// `T[o][j][l]`, and the rows and columns from o + 3 on are zero.
const T: [[[i8; 8]; 8]; 6] = [
    [
        [1, 0, 0, 0, 0, 0, 0, 0],
        [0, 0, -1, 0, 0, 0, 0, 0],
        [0, 0, 0, 0, 0, 0, 0, 0],
        [0, 0, 0, 0, 0, 0, 0, 0],
        [0, 0, 0, 0, 0, 0, 0, 0],
        [0, 0, 0, 0, 0, 0, 0, 0],
        [0, 0, 0, 0, 0, 0, 0, 0],
        [0, 0, 0, 0, 0, 0, 0, 0],
    ],
    [
        [1, 0, 0, 0, 0, 0, 0, 0],
        [1, 1, 0, 0, 0, 0, 0, 0],
        [0, 0, 0, -1, 0, 0, 0, 0],
        [0, 0, 0, 0, 0, 0, 0, 0],
        [0, 0, 0, 0, 0, 0, 0, 0],
        [0, 0, 0, 0, 0, 0, 0, 0],
        [0, 0, 0, 0, 0, 0, 0, 0],
        [0, 0, 0, 0, 0, 0, 0, 0],
    ],
    [
        [1, 0, 0, 0, 0, 0, 0, 0],
        [1, 1, 0, 0, 0, 0, 0, 0],
        [1, 1, 1, 0, 0, 0, 0, 0],
        [0, 0, 0, 0, -1, 0, 0, 0],
        [0, 0, 0, 0, 0, 0, 0, 0],
        [0, 0, 0, 0, 0, 0, 0, 0],
        [0, 0, 0, 0, 0, 0, 0, 0],
        [0, 0, 0, 0, 0, 0, 0, 0],
    ],
    [
        [1, 0, 0, 0, 0, 0, 0, 0],
        [1, 1, 0, 0, 0, 0, 0, 0],
        [1, 1, 1, 0, 0, 0, 0, 0],
        [1, 1, 1, 1, 0, 0, 0, 0],
        [0, 0, 0, 0, 0, -1, 0, 0],
        [0, 0, 0, 0, 0, 0, 0, 0],
        [0, 0, 0, 0, 0, 0, 0, 0],
        [0, 0, 0, 0, 0, 0, 0, 0],
    ],
    [
        [1, 0, 0, 0, 0, 0, 0, 0],
        [1, 1, 0, 0, 0, 0, 0, 0],
        [1, 1, 1, 0, 0, 0, 0, 0],
        [1, 1, 1, 1, 0, 0, 0, 0],
        [1, 1, 1, 1, 1, 0, 0, 0],
        [0, 0, 0, 0, 0, 0, -1, 0],
        [0, 0, 0, 0, 0, 0, 0, 0],
        [0, 0, 0, 0, 0, 0, 0, 0],
    ],
    [
        [1, 0, 0, 0, 0, 0, 0, 0],
        [1, 1, 0, 0, 0, 0, 0, 0],
        [1, 1, 1, 0, 0, 0, 0, 0],
        [1, 1, 1, 1, 0, 0, 0, 0],
        [1, 1, 1, 1, 1, 0, 0, 0],
        [1, 1, 1, 1, 1, 1, 0, 0],
        [0, 0, 0, 0, 0, 0, 0, -1],
        [0, 0, 0, 0, 0, 0, 0, 0],
    ],
];

/// Where the entry in row j and column l of a matrix stands.
#[derive(Clone, Copy)]
pub enum Entries {
    /// In numbers[j·size + l].
    ByRows,
    /// In numbers[l·size + j].
    ByColumns,
    /// In the constant table, at this order.
    OfTranspose(usize),
}

/// A matrix of `size` rows and columns, over numbers that lie beside it.
#[derive(Clone, Copy)]
pub struct Matrix {
    pub size: usize,
    pub entries: Entries,
}

/// The constant table keeps its rule: one test over all of its entries.
fn table() -> &'static [[[i8; 8]; 8]; 6]
    ensures { ruled result.now ≡ true }
{
    &T
}

/// Entry (j, l) of the constant table.
fn constant(order: usize, j: usize, l: usize) -> i8
    requires order { order ≤ 5 }
    requires row { j < 8 }
    requires col { l < 8 }
    ensures { result ≡ sign order j l }
{
    table()[order][j][l]
}

/// One, minus one, or zero.
fn scalar_of<S: Scalar>(sign: i8) -> S
    ensures { S.means result ≡ signed S.ops sign }
{
    match sign {
        1 => S::one(),
        -1 => S::one().neg(),
        _ => S::zero(),
    }
}

fn transposed_entry<S: Scalar>(order: usize, j: usize, l: usize) -> S
    requires order { order ≤ 5 }
    requires row { j < 8 }
    requires col { l < 8 }
    ensures { S.means result ≡ transposed S.ops order j l }
{
    scalar_of(constant(order, j, l))
}

impl Matrix {
    pub(crate) fn entry<S: Scalar>(self, numbers: &[S], j: usize, l: usize) -> S
        requires small { Small self (length numbers.now) }
        requires row { j < self.size }
        requires col { l < self.size }
        ensures { S.means result ≡ entry_of S.ops self (map S.means numbers.now) j l }
    {
        match self.entries {
            Entries::ByRows => numbers[j * self.size + l],
            Entries::ByColumns => numbers[l * self.size + j],
            Entries::OfTranspose(order) => transposed_entry(order, j, l),
        }
    }
}
