//! The index calls.
ghost use Rattle.std.specs.Prelude.{◌≡◌, [], ◌∷◌, length, OnOk, OnErr};
ghost use Rattle.shape.specs.Refusals.{answer, first_of};
ghost use Rattle.index.specs.Calls.{gather_tests, scatter_tests, copy_tests, route_tests, assign_tests, Routed, Assigned};
ghost use Rattle.index.specs.declared.route.Route.TheVariants.{Gather, Scatter, Copy as Same};

use crate::check::{check_assign, check_route};
use crate::lanes::{assign_lanes, route_lanes};
use crate::route::Route;
use scalar::Scalar;
use shape::{Column, Refusal};

/// One call through the list: it is tested whole before the first write.
// Inlined, so that each call is compiled for its own route.
#[inline(always)]
fn go_through<S: Copy>(
    route: Route,
    x: Column,
    xs: &[S],
    list: &[usize],
    y: Column,
    ys: &mut [S],
) -> Result<(), Refusal>
    ensures verdict { answer result ≡ first_of (route_tests route x (length xs.now) list.now y (length ys.old)) }
    ensures accepted { OnOk result (Routed route x xs.now list.now y ys.old ys.new) }
    ensures refused { OnErr result (ys.new ≡ ys.old) }
{
    check_route(route, x, xs.len(), list, y, ys.len())?;
    route_lanes(route, x, xs, list, y, ys);
    Ok(())
}

/// Row i of y becomes the row of x that the list names at i.
pub fn gather<S: Scalar>(
    x: Column,
    xs: &[S],
    list: &[usize],
    y: Column,
    ys: &mut [S],
) -> Result<(), Refusal>
    ensures verdict { answer result ≡ first_of (gather_tests x (length xs.now) list.now y (length ys.old)) }
    ensures accepted { OnOk result (Routed Gather x xs.now list.now y ys.old ys.new) }
    ensures refused { OnErr result (ys.new ≡ ys.old) }
{
    go_through(Route::Gather, x, xs, list, y, ys)
}

/// The row of y that the list names at i becomes row i of x, in list order: of several entries
/// that name one row the later wins.
pub fn scatter<S: Scalar>(
    x: Column,
    xs: &[S],
    list: &[usize],
    y: Column,
    ys: &mut [S],
) -> Result<(), Refusal>
    ensures verdict { answer result ≡ first_of (scatter_tests x (length xs.now) list.now y (length ys.old)) }
    ensures accepted { OnOk result (Routed Scatter x xs.now list.now y ys.old ys.new) }
    ensures refused { OnErr result (ys.new ≡ ys.old) }
{
    go_through(Route::Scatter, x, xs, list, y, ys)
}

/// Each row of y that the list names becomes the same row of x.
pub fn copy_from_indices<S: Scalar>(
    x: Column,
    xs: &[S],
    list: &[usize],
    y: Column,
    ys: &mut [S],
) -> Result<(), Refusal>
    ensures verdict { answer result ≡ first_of (copy_tests x (length xs.now) list.now y (length ys.old)) }
    ensures accepted { OnOk result (Routed Same x xs.now list.now y ys.old ys.new) }
    ensures refused { OnErr result (ys.new ≡ ys.old) }
{
    go_through(Route::Copy, x, xs, list, y, ys)
}

/// Each row of y that the list names becomes the value.
pub fn assign_at_indices<S: Scalar>(
    list: &[usize],
    value: S,
    y: Column,
    ys: &mut [S],
) -> Result<(), Refusal>
    ensures verdict { answer result ≡ first_of (assign_tests list.now y (length ys.old)) }
    ensures accepted { OnOk result (Assigned value list.now y ys.old ys.new) }
    ensures refused { OnErr result (ys.new ≡ ys.old) }
{
    check_assign(list, y, ys.len())?;
    assign_lanes(list, value, y, ys);
    Ok(())
}

/// One row of every lane becomes the value.
pub fn fill_index<S: Scalar>(row: usize, value: S, y: Column, ys: &mut [S]) -> Result<(), Refusal>
    ensures verdict { answer result ≡ first_of (assign_tests (row ∷ []) y (length ys.old)) }
    ensures accepted { OnOk result (Assigned value (row ∷ []) y ys.old ys.new) }
    ensures refused { OnErr result (ys.new ≡ ys.old) }
{
    assign_at_indices(&[row], value, y, ys)
}
