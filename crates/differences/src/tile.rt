//! Some rows of one lane times a matrix: the old rows are staged in work memory, a column after
//! the other, and the new columns are written from there.
ghost use Rattle.std.specs.Prelude.{◌≡◌, ℕ, ◌+◌, ◌-◌, ◌*◌, ◌<◌, ◌≤◌, length, slice_index_or};
ghost use Rattle.shape.specs.Shapes.{cell, Fits};
ghost use Rattle.shape.specs.Changes.{Changed, RunChanged, LaneBand, meant};
ghost use Rattle.scalar.specs.Sums.{at};
ghost use Rattle.product.specs.Results.{Run};
ghost use Rattle.differences.specs.Matrices.{Small};
ghost use Rattle.differences.specs.MulCols.{MulColsLawful, cell_multiplied};
ghost use Rattle.differences.specs.Tiles.{Within, InTile, Staged, staged_product};

use crate::matrix::Matrix;
use scalar::Scalar;
use shape::TableShape;

/// Rows `row` to `row + height − 1` of one lane.
#[derive(Clone, Copy)]
pub struct Tile {
    pub lane: usize,
    pub row: usize,
    pub height: usize,
}

impl Tile {
    /// Where the tile's rows of a column start.
    fn start(self, t: TableShape, col: usize) -> usize
        requires limits { (len : ℕ) × Fits t len }
        requires within { Within t self }
        requires col { col < t.cols }
        ensures { result ≡ cell t self.lane col self.row }
    {
        t.column(col).start(self.lane) + self.row
    }
}

fn copy_part<S: Copy>(xs: &[S], from: usize, ys: &mut [S], to: usize, count: usize)
    requires source { from + count ≤ length xs.now }
    requires target { to + count ≤ length ys.old }
    ensures { RunChanged to count (λ i v. (d : S) → v ≡ slice_index_or xs.now (from + i) d) ys.old ys.new }
{
    ys[to..to + count].copy_from_slice(&xs[from..from + count]);
}

/// The tile's rows of the columns below k go into the work memory.
fn stage<S: Copy>(t: TableShape, ts: &[S], tile: Tile, k: usize, work: &mut [S])
    requires fits { Fits t (length ts.now) }
    requires tile { Within t tile }
    requires within { k ≤ t.cols }
    requires room { k * tile.height ≤ length work.old }
    ensures { Staged t ts.now tile k work.new }
{
    for l in 0..k {
        copy_part(ts, tile.start(t, l), work, l * tile.height, tile.height);
    }
}

/// Row r of a staged tile times row j of the matrix, summed from zero.
fn dot<S: Scalar>(staged: &[S], height: usize, r: usize, m: Matrix, numbers: &[S], j: usize) -> S
    requires small { Small m (length numbers.now) }
    requires j { j < m.size }
    requires r { r < height }
    requires room { m.size * height ≤ length staged.now }
    ensures { S.means result ≡ staged_product S.means S.ops staged.now height m numbers.now j r }
{
    let mut sum = S::zero();
    for l in 0..m.size {
        sum = sum.add(staged[l * height + r].mul(m.entry(numbers, j, l)));
    }
    sum
}

/// New column j of a staged tile, row after row.
fn write_by_rows<S: Scalar>(staged: &[S], m: Matrix, numbers: &[S], j: usize, y: &mut [S])
    requires small { Small m (length numbers.now) }
    requires j { j < m.size }
    requires room { m.size * length y.old ≤ length staged.now }
    ensures { Run S.means (staged_product S.means S.ops staged.now (length y.old) m numbers.now j) y.new }
{
    let height = y.len();
    for (i, v) in y.iter_mut().enumerate() {
        *v = dot(staged, height, i, m, numbers, j);
    }
}

/// Every entry becomes zero.
fn clear<S: Scalar>(y: &mut [S])
    ensures { Run S.means (λ i. S.ops.zero) y.new }
{
    for (i, v) in y.iter_mut().enumerate() {
        *v = S::zero();
    }
}

/// y gains the staged column that starts at place `from`, times an entry.
fn gain_staged<S: Scalar>(staged: &[S], from: usize, by: S, y: &mut [S])
    requires { from + length y.old ≤ length staged.now }
    ensures { Run S.means (λ i. S.ops.plus (at S.means S.ops y.old i) (S.ops.times (at S.means S.ops staged.now (from + i)) (S.means by))) y.new }
{
    let column = &staged[from..from + y.len()];
    for (i, v) in y.iter_mut().enumerate() {
        *v = v.add(column[i].mul(by));
    }
}

/// New column j of a staged tile, an old column after the other: the sum of each row keeps its order.
fn write_by_columns<S: Scalar>(staged: &[S], m: Matrix, numbers: &[S], j: usize, y: &mut [S])
    requires small { Small m (length numbers.now) }
    requires j { j < m.size }
    requires room { m.size * length y.old ≤ length staged.now }
    ensures { Run S.means (staged_product S.means S.ops staged.now (length y.old) m numbers.now j) y.new }
{
    clear(y);
    for l in 0..m.size {
        gain_staged(staged, l * y.len(), m.entry(numbers, j, l), y);
    }
}

/// New column j of a staged tile. Columns gain side by side: a third of the time from 100 rows on,
/// and more than twice of it for one row; for four rows of f32 half as much again, for seven less
/// than a tenth more.
fn write_run<S: Scalar>(staged: &[S], m: Matrix, numbers: &[S], j: usize, y: &mut [S])
    requires small { Small m (length numbers.now) }
    requires j { j < m.size }
    requires room { m.size * length y.old ≤ length staged.now }
    ensures { (i : ℕ) (d : S) → i < length y.old → S.means (slice_index_or y.new i d) ≡ staged_product S.means S.ops staged.now (length y.old) m numbers.now j i }
{
    if y.len() < 7 {
        write_by_rows(staged, m, numbers, j, y);
    } else {
        write_by_columns(staged, m, numbers, j, y);
    }
}

fn write_part<S: Scalar>(
    staged: &[S],
    m: Matrix,
    numbers: &[S],
    j: usize,
    ts: &mut [S],
    to: usize,
    height: usize,
)
    requires small { Small m (length numbers.now) }
    requires j { j < m.size }
    requires room { m.size * height ≤ length staged.now }
    requires target { to + height ≤ length ts.old }
    ensures { RunChanged to height (λ i v. S.means v ≡ staged_product S.means S.ops staged.now height m numbers.now j i) ts.old ts.new }
{
    write_run(staged, m, numbers, j, &mut ts[to..to + height]);
}

/// The new columns of the tile, from its old ones in the work memory.
fn write_tile<S: Scalar>(
    t: TableShape,
    ts: &mut [S],
    tile: Tile,
    m: Matrix,
    numbers: &[S],
    staged: &[S],
)
    requires fits { Fits t (length ts.old) }
    requires tile { Within t tile }
    requires within { m.size ≤ t.cols }
    requires small { Small m (length numbers.now) }
    requires room { m.size * tile.height ≤ length staged.now }
    ensures { Changed t (InTile tile m.size) (λ b j i v. S.means v ≡ staged_product S.means S.ops staged.now tile.height m numbers.now j (i - tile.row)) ts.old ts.new }
{
    for j in 0..m.size {
        write_part(staged, m, numbers, j, ts, tile.start(t, j), tile.height);
    }
}

fn multiply_tile<S: Scalar>(
    t: TableShape,
    ts: &mut [S],
    tile: Tile,
    m: Matrix,
    numbers: &[S],
    work: &mut [S],
)
    requires law { MulColsLawful t (length ts.old) m (length numbers.now) (length work.old) }
    requires tile { Within t tile }
    requires room { m.size * tile.height ≤ length work.old }
    ensures { Changed t (InTile tile m.size) (meant S.means (cell_multiplied S.means S.ops t m numbers.now ts.old)) ts.old ts.new }
{
    stage(t, ts, tile, m.size, work);
    write_tile(t, ts, tile, m, numbers, work);
}

/// How many rows of k columns the work memory holds.
fn tallest(work: usize, k: usize) -> usize
    requires { k ≤ work }
    ensures some { 0 < result }
    ensures room { k * result ≤ work }
{
    // With no columns every row is done at once.
    if k == 0 {
        return 65536;
    }
    work / k
}

/// One lane, as many rows at a time as the work memory holds.
pub(crate) fn multiply_lane<S: Scalar>(
    t: TableShape,
    ts: &mut [S],
    lane: usize,
    m: Matrix,
    numbers: &[S],
    work: &mut [S],
)
    requires law { MulColsLawful t (length ts.old) m (length numbers.now) (length work.old) }
    requires lane { lane < t.lanes }
    ensures { Changed t (LaneBand lane 0 m.size) (meant S.means (cell_multiplied S.means S.ops t m numbers.now ts.old)) ts.old ts.new }
{
    let tall = tallest(work.len(), m.size);
    for row in (0..t.rows).step_by(tall) {
        let height = tall.min(t.rows - row);
        let tile = Tile { lane, row, height };
        multiply_tile(t, ts, tile, m, numbers, work);
    }
}
