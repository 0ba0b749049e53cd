//! The shape of a table, and a column of every lane of it as an operand.
ghost use Rattle.std.specs.Prelude.{◌≡◌, ℕ, ◌<◌, ◌≤◌};
ghost use Rattle.shape.specs.Shapes.{start, column_of, whole, band_of, all_of, Fits, Lawful};

/// Rows, columns and lanes of a table. Cell (i, j) of lane b lies at (b·cols + j)·rows + i.
#[derive(Clone, Copy, PartialEq, Debug)]
pub struct TableShape {
    pub rows: usize,
    pub cols: usize,
    pub lanes: usize,
}

/// Column `col` of every lane of a table: a view that copies nothing. A vector is the column of a
/// table of one column, so one text serves vectors and views.
#[derive(Clone, Copy, PartialEq, Debug)]
pub struct Column {
    pub of: TableShape,
    pub col: usize,
}

/// Columns `first` to `first + count − 1` of every lane: in each lane one run of memory.
#[derive(Clone, Copy, PartialEq, Debug)]
pub struct Band {
    pub of: TableShape,
    pub first: usize,
    pub count: usize,
}

impl TableShape {
    /// All columns.
    pub fn band(self) -> Band
        ensures { result ≡ all_of self }
    {
        Band {
            of: self,
            first: 0,
            count: self.cols,
        }
    }

    /// Column j of every lane.
    pub fn column(self, j: usize) -> Column
        ensures { result ≡ column_of self j }
    {
        Column { of: self, col: j }
    }
}

impl Column {
    /// A whole vector: row i of lane b lies at b·rows + i.
    pub fn vector(rows: usize, lanes: usize) -> Column
        ensures { result ≡ whole rows lanes }
    {
        Column {
            of: TableShape {
                rows,
                cols: 1,
                lanes,
            },
            col: 0,
        }
    }

    /// Where the column's run of a lane starts, promised for the lanes of a lawful operand.
    pub fn start(self, lane: usize) -> usize
        ensures { (len : ℕ) → Lawful self len → lane < self.of.lanes → result ≡ start self.of lane self.col }
    {
        self.band().start(lane)
    }

    /// The one column as a band.
    pub fn band(self) -> Band
        ensures { result ≡ band_of self }
    {
        Band {
            of: self.of,
            first: self.col,
            count: 1,
        }
    }
}

impl Band {
    /// Where a lane's run starts. It wraps, so it answers for every shape; what it answers is
    /// promised for the lanes of a shape that fits its memory.
    #[tactic(auto, using(crate::proofs::Blocks::start_wraps))]
    pub fn start(self, lane: usize) -> usize
        ensures { (len : ℕ) → Fits self.of len → self.first ≤ self.of.cols → lane < self.of.lanes → result ≡ start self.of lane self.first }
    {
        lane.wrapping_mul(self.of.cols)
            .wrapping_add(self.first)
            .wrapping_mul(self.of.rows)
    }
}
