//! A script of steps, each by place and count in the arrays beside it.
ghost use Rattle.std.specs.Prelude.{◌≡◌, option_copied};
ghost use Rattle.steps.specs.Steps.{part};

use steps::kind::Kind;

/// A kind of step; its numbers are `number_count` entries of the script's numbers from
/// `numbers_at` on, its list `list_count` entries of the script's indices from `list_at` on.
#[derive(Clone, Copy)]
pub struct StepRecord {
    pub kind: Kind,
    pub numbers_at: usize,
    pub number_count: usize,
    pub list_at: usize,
    pub list_count: usize,
}

/// A script: the records of its steps, and the arrays that their numbers and their lists lie in.
#[derive(Clone, Copy)]
pub struct Script<'a, S> {
    pub steps: &'a [StepRecord],
    pub numbers: &'a [S],
    pub indices: &'a [usize],
}

/// `count` entries of an array from `place` on, None where they pass its end. No sum of place and
/// count is formed, so none wraps.
fn part<T>(xs: &[T], place: usize, count: usize) -> Option<&[T]>
    ensures { option_copied result ≡ part place count xs.now }
{
    xs.get(place..)?.get(..count)
}

impl<'a, S> Script<'a, S> {
    /// The numbers of a step, None where they pass the script's.
    pub fn numbers_of(self, x: StepRecord) -> Option<&'a [S]>
        ensures { option_copied result ≡ part x.numbers_at x.number_count self.entry.numbers.now }
    {
        part(self.numbers, x.numbers_at, x.number_count)
    }

    /// The list of a step, None where it passes the script's indices.
    pub fn list_of(self, x: StepRecord) -> Option<&'a [usize]>
        ensures { option_copied result ≡ part x.list_at x.list_count self.entry.indices.now }
    {
        part(self.indices, x.list_at, x.list_count)
    }
}
