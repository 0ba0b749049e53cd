//! A destination revised entry by entry, with no source.
ghost use Rattle.std.specs.Prelude.{◌≡◌, ℕ, ◌+◌, ◌<◌, ◌≤◌, length, slice_index_or};
ghost use Rattle.shape.specs.Changes.{Changed, RunChanged, InBand};
ghost use Rattle.elementwise.specs.Entrywise.{BandLawful, revised};

use crate::rules::Revision;
use shape::Band;

fn revise_run<S: Copy, R: Revision<S>>(rule: R, y: &mut [S])
    ensures { (i : ℕ) (d : S) → i < length y.old → R.Revision.made rule (slice_index_or y.old i d) (slice_index_or y.new i d) }
{
    for entry in y.iter_mut() {
        *entry = rule.apply(*entry);
    }
}

fn revise_part<S: Copy, R: Revision<S>>(rule: R, ys: &mut [S], to: usize, count: usize)
    requires { to + count ≤ length ys.old }
    ensures { RunChanged to count (λ i v. (d : S) → R.Revision.made rule (slice_index_or ys.old (to + i) d) v) ys.old ys.new }
{
    revise_run(rule, &mut ys[to..to + count]);
}

/// Every lane of an accepted call.
pub(crate) fn revise_lanes<S: Copy, R: Revision<S>>(rule: R, y: Band, ys: &mut [S])
    requires { BandLawful y (length ys.old) }
    ensures { Changed y.of (InBand y.first y.count) (revised (R.Revision.made rule) y.of ys.old) ys.old ys.new }
{
    for lane in 0..y.of.lanes {
        revise_part(rule, ys, y.start(lane), y.count * y.of.rows);
    }
}
