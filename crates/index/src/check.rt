//! The tests of the index calls.
ghost use Rattle.std.specs.Prelude.{◌≡◌, OnOk};
ghost use Rattle.shape.specs.Refusals.{answer, first_of};
ghost use Rattle.index.specs.Indices.{outside};
ghost use Rattle.index.specs.Calls.{route_tests, assign_tests, RouteLawful, AssignLawful};

use crate::route::Route;
use shape::lanes::no_broadcast;
use shape::{Column, Refusal, refuse_columns};

/// Some index of a part of a list is not below `rows`. To the end, whatever is found: with no exit
/// within, two indices are tested at once.
fn part_has_outside(part: &[usize], rows: usize) -> bool
    ensures { result ≡ outside rows part.now }
{
    let mut found = false;
    for k in part {
        found |= *k >= rows;
    }
    found
}

/// The same of what is left behind the parts, one index after the other.
fn rest_has_outside(rest: &[usize], rows: usize) -> bool
    ensures { result ≡ outside rows rest.now }
{
    rest.iter().any(|k| *k >= rows)
}

/// Some index of the list is not below `rows`. What lies behind the part that has one is not read,
/// so what a refused list costs does not grow with what lies behind that part.
// Inlined, since a short list takes no longer than a call.
#[inline(always)]
#[tactic(auto, using(crate::proofs::Tested::parted))]
pub fn has_outside(list: &[usize], rows: usize) -> bool
    ensures { result ≡ outside rows list.now }
{
    let mut left = list;
    while let Some((part, later)) = left.split_first_chunk::<16>() {
        if part_has_outside(part, rows) {
            return true;
        }
        left = later;
    }
    rest_has_outside(left, rows)
}

/// The tests of the calls that go through a list from column x to column y, and what acceptance
/// tells.
pub(crate) fn check_route(
    route: Route,
    x: Column,
    x_len: usize,
    list: &[usize],
    y: Column,
    y_len: usize,
) -> Result<(), Refusal>
    ensures verdict { answer result ≡ first_of (route_tests route x x_len list.now y y_len) }
    ensures lawful { OnOk result (RouteLawful route x x_len list.now y y_len) }
{
    refuse_columns!(x, x_len; y, y_len);
    if no_broadcast(x.of.lanes, y.of.lanes) {
        return Err(Refusal::Lanes);
    }
    if route.has_wrong_length(list.len(), x.of.rows, y.of.rows) {
        return Err(Refusal::ListLength);
    }
    if route.goes_beyond(list, x.of.rows, y.of.rows) {
        return Err(Refusal::Index);
    }
    Ok(())
}

/// The tests of `assign_at_indices`, and what acceptance tells.
pub(crate) fn check_assign(list: &[usize], y: Column, y_len: usize) -> Result<(), Refusal>
    ensures verdict { answer result ≡ first_of (assign_tests list.now y y_len) }
    ensures lawful { OnOk result (AssignLawful list.now y y_len) }
{
    refuse_columns!(y, y_len);
    if has_outside(list, y.of.rows) {
        return Err(Refusal::Index);
    }
    Ok(())
}
