//! The loops over a list and its index, in one lane's runs.
ghost use Rattle.std.specs.Prelude.{◌≡◌, ℕ, ◌<◌, length, slice_index_or};
ghost use Rattle.index.specs.Indices.{Inside, settled};
ghost use Rattle.index.specs.Routes.{became, Ready};

use crate::route::Route;

/// One lane: the runs of the source's column and of the destination's.
pub(crate) fn route_run<S: Copy>(route: Route, list: &[usize], x: &[S], y: &mut [S])
    requires { Ready route list.now (length x.now) (length y.old) }
    ensures { (k : ℕ) (d : S) → k < length y.old → slice_index_or y.new k d ≡ became route list.now (λ i. slice_index_or x.now i d) (slice_index_or y.old k d) k }
{
    for (i, k) in list.iter().enumerate() {
        let (from, to) = route.rows(i, *k);
        y[to] = x[from];
    }
}

/// Each row that the list names becomes the value.
pub(crate) fn assign_run<S: Copy>(list: &[usize], value: S, y: &mut [S])
    requires { Inside (length y.old) list.now }
    ensures { (k : ℕ) (d : S) → k < length y.old → slice_index_or y.new k d ≡ settled list.now 0 k (λ i. value) (slice_index_or y.old k d) }
{
    for k in list {
        y[*k] = value;
    }
}
