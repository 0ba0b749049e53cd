//! One lane after the other, each by its runs.
ghost use Rattle.std.specs.Prelude.{◌≡◌, ◌+◌, ◌≤◌, length, slice_index_or};
ghost use Rattle.shape.specs.Changes.{RunChanged};
ghost use Rattle.index.specs.Indices.{Inside, settled};
ghost use Rattle.index.specs.Routes.{became, Ready};
ghost use Rattle.index.specs.Calls.{Routed, RouteLawful, Assigned, AssignLawful};

use crate::route::Route;
use crate::runs::{assign_run, route_run};
use shape::Column;
use shape::lanes::lane_for;

/// The runs of m entries of the source and of n of the destination, lent from the whole memories.
pub(crate) fn route_part<S: Copy>(
    route: Route,
    list: &[usize],
    xs: &[S],
    from: usize,
    m: usize,
    ys: &mut [S],
    to: usize,
    n: usize,
)
    requires ready { Ready route list.now m n }
    requires source { from + m ≤ length xs.now }
    requires target { to + n ≤ length ys.old }
    ensures { RunChanged to n (λ k v. (d : S) → v ≡ became route list.now (λ i. slice_index_or xs.now (from + i) d) (slice_index_or ys.old (to + k) d) k) ys.old ys.new }
{
    route_run(route, list, &xs[from..from + m], &mut ys[to..to + n]);
}

/// The lanes of an accepted call.
pub(crate) fn route_lanes<S: Copy>(
    route: Route,
    x: Column,
    xs: &[S],
    list: &[usize],
    y: Column,
    ys: &mut [S],
)
    requires { RouteLawful route x (length xs.now) list.now y (length ys.old) }
    ensures { Routed route x xs.now list.now y ys.old ys.new }
{
    for lane in 0..y.of.lanes {
        let from = x.start(lane_for(lane, x.of.lanes, y.of.lanes));
        route_part(
            route,
            list,
            xs,
            from,
            x.of.rows,
            ys,
            y.start(lane),
            y.of.rows,
        );
    }
}

fn assign_part<S: Copy>(list: &[usize], value: S, ys: &mut [S], to: usize, n: usize)
    requires inside { Inside n list.now }
    requires target { to + n ≤ length ys.old }
    ensures { RunChanged to n (λ k v. (d : S) → v ≡ settled list.now 0 k (λ i. value) (slice_index_or ys.old (to + k) d)) ys.old ys.new }
{
    assign_run(list, value, &mut ys[to..to + n]);
}

/// The lanes of an accepted assignment.
pub(crate) fn assign_lanes<S: Copy>(list: &[usize], value: S, y: Column, ys: &mut [S])
    requires { AssignLawful list.now y (length ys.old) }
    ensures { Assigned value list.now y ys.old ys.new }
{
    for lane in 0..y.of.lanes {
        assign_part(list, value, ys, y.start(lane), y.of.rows);
    }
}
