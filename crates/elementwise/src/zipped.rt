//! A source read into a destination entry by entry.
ghost use Rattle.std.specs.Prelude.{◌≡◌, ℕ, true, ◌+◌, ◌<◌, ◌≤◌, length, slice_index_or};
ghost use Rattle.shape.specs.Changes.{Changed, RunChanged, InBand};
ghost use Rattle.elementwise.specs.Entrywise.{BandsLawful, banded, joined};

use crate::rules::Rule;
use shape::Band;
use shape::lanes::lane_for;

/// One run. The loop's work depends on the row alone, so it vectorises.
fn zip_run<S: Copy, R: Rule<S>>(rule: R, x: &[S], y: &mut [S])
    requires { length x.now ≡ length y.old }
    ensures { (i : ℕ) (d : S) → i < length y.old → R.Rule.made rule (slice_index_or x.now i d) (slice_index_or y.old i d) (slice_index_or y.new i d) }
{
    for (i, entry) in y.iter_mut().enumerate() {
        *entry = rule.apply(x[i], *entry);
    }
}

/// The run of `count` entries from place `to` on, lent from the whole memory.
fn zip_part<S: Copy, R: Rule<S>>(
    rule: R,
    xs: &[S],
    from: usize,
    ys: &mut [S],
    to: usize,
    count: usize,
)
    requires source { from + count ≤ length xs.now }
    requires target { to + count ≤ length ys.old }
    ensures { RunChanged to count (λ i v. (d : S) → R.Rule.made rule (slice_index_or xs.now (from + i) d) (slice_index_or ys.old (to + i) d) v) ys.old ys.new }
{
    zip_run(rule, &xs[from..from + count], &mut ys[to..to + count]);
}

/// Each lane's band is one run.
// Compiled by itself, so that the tests of a call take no registers from its loops.
#[inline(never)]
fn zip_lanes<S: Copy, R: Rule<S>>(rule: R, x: Band, xs: &[S], y: Band, ys: &mut [S])
    requires { BandsLawful x (length xs.now) y (length ys.old) }
    ensures { Changed y.of (InBand y.first y.count) (banded (R.Rule.made rule) x xs.now y ys.old) ys.old ys.new }
{
    for lane in 0..y.of.lanes {
        let from = x.start(lane_for(lane, x.of.lanes, y.of.lanes));
        zip_part(rule, xs, from, ys, y.start(lane), y.count * y.of.rows);
    }
}

/// The runs of all lanes as one, where each ends where the next begins: there is one lane, or the
/// bands are all columns.
fn zip_joined<S: Copy, R: Rule<S>>(rule: R, x: Band, xs: &[S], y: Band, ys: &mut [S])
    requires lawful { BandsLawful x (length xs.now) y (length ys.old) }
    requires lanes { x.of.lanes ≡ y.of.lanes }
    requires source { joined x ≡ true }
    requires target { joined y ≡ true }
    ensures { Changed y.of (InBand y.first y.count) (banded (R.Rule.made rule) x xs.now y ys.old) ys.old ys.new }
{
    let entries = y.count * y.of.rows * y.of.lanes;
    zip_part(rule, xs, x.start(0), ys, y.start(0), entries);
}

/// Each run ends where the next begins.
fn joined(y: Band) -> bool
    ensures { result ≡ joined y }
{
    y.of.lanes == 1 || y.count == y.of.cols
}

/// Every lane of an accepted call: as one run where runs follow one another, else lane by lane.
pub(crate) fn zip_bands<S: Copy, R: Rule<S>>(rule: R, x: Band, xs: &[S], y: Band, ys: &mut [S])
    requires { BandsLawful x (length xs.now) y (length ys.old) }
    ensures { Changed y.of (InBand y.first y.count) (banded (R.Rule.made rule) x xs.now y ys.old) ys.old ys.new }
{
    if x.of.lanes == y.of.lanes && joined(x) && joined(y) {
        zip_joined(rule, x, xs, y, ys);
    } else {
        zip_lanes(rule, x, xs, y, ys);
    }
}
