//! The tests of the index calls on tables.
ghost use Rattle.std.specs.Prelude.{◌≡◌, false, length, nat_lt, OnOk};
ghost use Rattle.shape.specs.Shapes.{too_large};
ghost use Rattle.shape.specs.Refusals.{answer, first_of};
ghost use Rattle.index.specs.Indices.{outside};
ghost use Rattle.index.specs.Tables.{lane_cells, paired, cells_tests, CellsLawful, pairs_tests, PairsLawful};

use crate::check::has_outside;
use shape::check::{no_column, too_large};
use shape::lanes::no_broadcast;
use shape::{Column, Refusal, TableShape, refuse_shapes};

/// The cells of a lane; asked within the limits, where the product cannot wrap.
pub(crate) fn lane_cells(t: TableShape) -> usize
    ensures { too_large t ≡ false → result ≡ lane_cells t }
{
    if too_large(t) {
        return 0;
    }
    t.rows * t.cols
}

/// The entries of a that have a partner in b.
pub(crate) fn with_partner<'a>(a: &'a [usize], b: &[usize]) -> &'a [usize]
    ensures { result.now ≡ paired a.now b.now }
{
    if a.len() <= b.len() {
        return a;
    }
    &a[..b.len()]
}

fn longer_than_lane(list: &[usize], t: TableShape) -> bool
    ensures { too_large t ≡ false → result ≡ nat_lt (lane_cells t) (length list.now) }
{
    list.len() > lane_cells(t)
}

fn has_outside_lane(list: &[usize], t: TableShape) -> bool
    ensures { too_large t ≡ false → result ≡ outside (lane_cells t) list.now }
{
    has_outside(list, lane_cells(t))
}

/// The tests of `gather` on tables, and what acceptance tells.
pub(crate) fn check_cells(
    x: TableShape,
    x_len: usize,
    list: &[usize],
    t: TableShape,
    t_len: usize,
) -> Result<(), Refusal>
    ensures verdict { answer result ≡ first_of (cells_tests x x_len list.now t t_len) }
    ensures lawful { OnOk result (CellsLawful x x_len list.now t t_len) }
{
    refuse_shapes!(x, x_len; t, t_len);
    if no_broadcast(x.lanes, t.lanes) {
        return Err(Refusal::Lanes);
    }
    if longer_than_lane(list, t) || has_outside_lane(list, x) {
        return Err(Refusal::Index);
    }
    Ok(())
}

/// The tests of `set_data_with_indices`, and what acceptance tells.
pub(crate) fn check_pairs(
    dst: &[usize],
    src: &[usize],
    v: Column,
    v_len: usize,
    t: TableShape,
    t_len: usize,
) -> Result<(), Refusal>
    ensures verdict { answer result ≡ first_of (pairs_tests dst.now src.now v v_len t t_len) }
    ensures lawful { OnOk result (PairsLawful dst.now src.now v v_len t t_len) }
{
    refuse_shapes!(v.of, v_len; t, t_len);
    if no_column(v) {
        return Err(Refusal::NoColumn);
    }
    if no_broadcast(v.of.lanes, t.lanes) {
        return Err(Refusal::Lanes);
    }
    if has_outside_lane(with_partner(dst, src), t)
        || has_outside(with_partner(src, dst), v.of.rows)
    {
        return Err(Refusal::Index);
    }
    Ok(())
}
