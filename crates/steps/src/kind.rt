//! The ten kinds of steps on a table D and its vectors u and v, and what a step of each kind asks for.
//! Back, a step works on the weights E, p and q of D, u and v.
ghost use Rattle.std.specs.Prelude.{◌≡◌, if◌then◌else◌};
ghost use Rattle.steps.specs.Steps.{needed, listed, misplaced, too_many};

/// A kind with its columns. Its numbers a, b, M and x, in this order, and its list lie beside it.
#[derive(Clone, Copy, PartialEq, Debug)]
pub enum Kind {
    /// The difference update of D by u: column order + 2 becomes u less column order + 1, then each
    /// column from there to the left gains its right neighbour. Back: the update's transpose of E,
    /// and p gains the sum of E's columns 0 to order + 2.
    Update { order: usize },
    /// Columns 0 to count − 1 of D times the matrix M. Back: those of E times M transposed.
    Cols { count: usize },
    /// u becomes (a·D)·x + b·u over the columns start to end − 1. Back: each of these columns of E
    /// gains (a·x)·p, then p becomes p·b.
    SumCol { start: usize, end: usize },
    /// u gains a column of D. Back: that column of E gains p.
    AddCol { column: usize },
    /// A column of D becomes u. Back: p gains that column of E, which becomes zero.
    SetCol { column: usize },
    /// u becomes a·v + b·u. Back: q gains a·p, then p becomes p·b.
    Axpy,
    /// v becomes u. Back: p gains q, which becomes zero.
    Copy,
    /// u becomes u·a. Back: p becomes p·a.
    Scale,
    /// Row i of u becomes row list(i) of v. Back: row list(i) of q gains row i of p in the list's
    /// order, then p becomes zero.
    Gather,
    /// Row list(i) of v becomes row i of u, in the list's order. Back, from the last entry to the
    /// first: row i of p gains row list(i) of q, which becomes zero.
    Scatter,
}

impl Kind {
    /// A column or a range is not within `cols` columns; order + 2 is compared without wrapping.
    pub fn misplaced(self, cols: usize) -> bool
        ensures { result ≡ misplaced cols self }
    {
        match self {
            Kind::Update { order } => cols.saturating_sub(2) <= order,
            Kind::Cols { count } => count > cols,
            Kind::SumCol { start, end } => end > cols || start > end,
            Kind::AddCol { column } | Kind::SetCol { column } => column >= cols,
            _ => false,
        }
    }

    /// An order above 5, or more than 8 columns.
    pub fn too_many(self) -> bool
        ensures { result ≡ too_many self }
    {
        match self {
            Kind::Update { order } => order > 5,
            Kind::Cols { count } => count > 8,
            Kind::SumCol { start, end } => end.saturating_sub(start) > 8,
            _ => false,
        }
    }

    /// How many numbers a step needs; 0 where its columns are too many, so that no product wraps.
    pub fn needed(self) -> usize
        ensures { result ≡ (if too_many self then 0 else needed self) }
    {
        if self.too_many() {
            return 0;
        }
        match self {
            Kind::Cols { count } => count * count,
            Kind::SumCol { start, end } => 2 + end.saturating_sub(start),
            Kind::Axpy => 2,
            Kind::Scale => 1,
            _ => 0,
        }
    }

    /// The kinds that read a list.
    pub fn reads_list(self) -> bool
        ensures { result ≡ listed self }
    {
        matches!(self, Kind::Gather | Kind::Scatter)
    }
}
