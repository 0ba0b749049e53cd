//! The exports in f64. What each call means, and in which order it refuses, stands on the library's
//! call of its name and in include/konsjift.h.
#![tactic(auto, using(crate::proofs::Answered::answered))]

ghost use Rattle.std.specs.Float.{binary64};
ghost use Rattle.capi.specs.Answers.{shaped, column};
ghost use Rattle.capi.specs.Calls.{AxpyAnswers, BatchedAxpyAnswers, GemvAnswers, GemvColsAnswers, GerColsAnswers};
ghost use Rattle.capi.specs.Calls.{MulColsAnswers, MulColsTransposeAnswers, UpdateAnswers, UpdateTransposeAnswers};
ghost use Rattle.capi.specs.Calls.{GatherAnswers, ScatterAnswers, NormAnswers, RootAnswers};

use crate::operand::{column, number, shaped};
use scalar::Scale;

/// y becomes a·x + b·y, and a·x alone where b is zero.
#[unsafe(no_mangle)]
pub extern "C" fn konsjift_axpy_f64(
    a: f64,
    x_rows: usize,
    x_cols: usize,
    x_lanes: usize,
    x_col: usize,
    x: &[f64],
    b: f64,
    y_rows: usize,
    y_cols: usize,
    y_lanes: usize,
    y_col: usize,
    y: &mut [f64],
) -> u8
    ensures { AxpyAnswers binary64 result a (column x_rows x_cols x_lanes x_col) x.now b (column y_rows y_cols y_lanes y_col) y.old y.new }
{
    let from = column!(x_rows, x_cols, x_lanes, x_col);
    let to = column!(y_rows, y_cols, y_lanes, y_col);
    number(vector::axpy(Scale(a), from, x, Scale(b), to, y))
}

/// axpy with a factor for each lane.
#[unsafe(no_mangle)]
pub extern "C" fn konsjift_batched_axpy_f64(
    a_rows: usize,
    a_cols: usize,
    a_lanes: usize,
    a_col: usize,
    a: &[f64],
    x_rows: usize,
    x_cols: usize,
    x_lanes: usize,
    x_col: usize,
    x: &[f64],
    b: f64,
    y_rows: usize,
    y_cols: usize,
    y_lanes: usize,
    y_col: usize,
    y: &mut [f64],
) -> u8
    ensures { BatchedAxpyAnswers binary64 result (column a_rows a_cols a_lanes a_col) a.now (column x_rows x_cols x_lanes x_col) x.now b (column y_rows y_cols y_lanes y_col) y.old y.new }
{
    let factors = column!(a_rows, a_cols, a_lanes, a_col);
    let from = column!(x_rows, x_cols, x_lanes, x_col);
    let to = column!(y_rows, y_cols, y_lanes, y_col);
    number(vector::batched_axpy(factors, a, from, x, Scale(b), to, y))
}

/// y becomes a·T·x + b·y.
#[unsafe(no_mangle)]
pub extern "C" fn konsjift_gemv_f64(
    a: f64,
    table_rows: usize,
    table_cols: usize,
    table_lanes: usize,
    table: &[f64],
    x_rows: usize,
    x_cols: usize,
    x_lanes: usize,
    x_col: usize,
    x: &[f64],
    b: f64,
    y_rows: usize,
    y_cols: usize,
    y_lanes: usize,
    y_col: usize,
    y: &mut [f64],
) -> u8
    ensures { GemvAnswers binary64 result a (shaped table_rows table_cols table_lanes) table.now (column x_rows x_cols x_lanes x_col) x.now b (column y_rows y_cols y_lanes y_col) y.old y.new }
{
    let of = shaped!(table_rows, table_cols, table_lanes);
    let with = column!(x_rows, x_cols, x_lanes, x_col);
    let to = column!(y_rows, y_cols, y_lanes, y_col);
    number(product::gemv(Scale(a), of, table, with, x, Scale(b), to, y))
}

/// gemv on columns `start` to `end` − 1, with coefficients that all lanes share.
#[unsafe(no_mangle)]
pub extern "C" fn konsjift_gemv_cols_f64(
    start: usize,
    end: usize,
    a: f64,
    table_rows: usize,
    table_cols: usize,
    table_lanes: usize,
    table: &[f64],
    x: &[f64],
    b: f64,
    y_rows: usize,
    y_cols: usize,
    y_lanes: usize,
    y_col: usize,
    y: &mut [f64],
) -> u8
    ensures { GemvColsAnswers binary64 result start end a (shaped table_rows table_cols table_lanes) table.now x.now b (column y_rows y_cols y_lanes y_col) y.old y.new }
{
    let of = shaped!(table_rows, table_cols, table_lanes);
    let to = column!(y_rows, y_cols, y_lanes, y_col);
    number(product::gemv_cols(Scale(a), of, table, start, end, x, Scale(b), to, y))
}

/// Cell (i, start + l) of the table gains (a·x_l)·p_i.
#[unsafe(no_mangle)]
pub extern "C" fn konsjift_ger_cols_f64(
    start: usize,
    end: usize,
    a: f64,
    x: &[f64],
    p_rows: usize,
    p_cols: usize,
    p_lanes: usize,
    p_col: usize,
    p: &[f64],
    table_rows: usize,
    table_cols: usize,
    table_lanes: usize,
    table: &mut [f64],
) -> u8
    ensures { GerColsAnswers binary64 result start end a x.now (column p_rows p_cols p_lanes p_col) p.now (shaped table_rows table_cols table_lanes) table.old table.new }
{
    let from = column!(p_rows, p_cols, p_lanes, p_col);
    let of = shaped!(table_rows, table_cols, table_lanes);
    number(product::ger_cols(Scale(a), x, from, p, of, table, start, end))
}

/// The first k columns times the matrix m, which is held column by column.
#[unsafe(no_mangle)]
pub extern "C" fn konsjift_mul_cols_by_f64(
    k: usize,
    m: &[f64],
    table_rows: usize,
    table_cols: usize,
    table_lanes: usize,
    table: &mut [f64],
    work: &mut [f64],
) -> u8
    ensures { MulColsAnswers binary64 result k m.now (shaped table_rows table_cols table_lanes) table.old table.new work.old work.new }
{
    let of = shaped!(table_rows, table_cols, table_lanes);
    number(differences::mul_cols_by(of, table, k, m, work))
}

/// The same with the transposed matrix.
#[unsafe(no_mangle)]
pub extern "C" fn konsjift_mul_cols_by_transpose_f64(
    k: usize,
    m: &[f64],
    table_rows: usize,
    table_cols: usize,
    table_lanes: usize,
    table: &mut [f64],
    work: &mut [f64],
) -> u8
    ensures { MulColsTransposeAnswers binary64 result k m.now (shaped table_rows table_cols table_lanes) table.old table.new work.old work.new }
{
    let of = shaped!(table_rows, table_cols, table_lanes);
    number(differences::mul_cols_by_transpose(of, table, k, m, work))
}

/// Column order + 2 becomes d less column order + 1, and the columns before it gain their right neighbours.
#[unsafe(no_mangle)]
pub extern "C" fn konsjift_update_backward_diff_f64(
    order: usize,
    d_rows: usize,
    d_cols: usize,
    d_lanes: usize,
    d_col: usize,
    d: &[f64],
    table_rows: usize,
    table_cols: usize,
    table_lanes: usize,
    table: &mut [f64],
) -> u8
    ensures { UpdateAnswers binary64 result order (column d_rows d_cols d_lanes d_col) d.now (shaped table_rows table_cols table_lanes) table.old table.new }
{
    let from = column!(d_rows, d_cols, d_lanes, d_col);
    let of = shaped!(table_rows, table_cols, table_lanes);
    number(differences::update_backward_diff(of, table, order, from, d))
}

/// d becomes the sum of the columns up to order + 2, which are multiplied by the constant matrix.
#[unsafe(no_mangle)]
pub extern "C" fn konsjift_update_backward_diff_transpose_f64(
    order: usize,
    table_rows: usize,
    table_cols: usize,
    table_lanes: usize,
    table: &mut [f64],
    d_rows: usize,
    d_cols: usize,
    d_lanes: usize,
    d_col: usize,
    d: &mut [f64],
    work: &mut [f64],
) -> u8
    ensures { UpdateTransposeAnswers binary64 result order (shaped table_rows table_cols table_lanes) table.old table.new (column d_rows d_cols d_lanes d_col) d.old d.new work.old work.new }
{
    let of = shaped!(table_rows, table_cols, table_lanes);
    let to = column!(d_rows, d_cols, d_lanes, d_col);
    number(differences::update_backward_diff_transpose(of, table, order, to, d, work))
}

/// Row i of y becomes the row of x that the list names at i.
#[unsafe(no_mangle)]
pub extern "C" fn konsjift_gather_f64(
    list: &[usize],
    x_rows: usize,
    x_cols: usize,
    x_lanes: usize,
    x_col: usize,
    x: &[f64],
    y_rows: usize,
    y_cols: usize,
    y_lanes: usize,
    y_col: usize,
    y: &mut [f64],
) -> u8
    ensures { GatherAnswers result list.now (column x_rows x_cols x_lanes x_col) x.now (column y_rows y_cols y_lanes y_col) y.old y.new }
{
    let from = column!(x_rows, x_cols, x_lanes, x_col);
    let to = column!(y_rows, y_cols, y_lanes, y_col);
    number(index::gather(from, x, list, to, y))
}

/// The row of y that the list names at i becomes row i of x, in list order.
#[unsafe(no_mangle)]
pub extern "C" fn konsjift_scatter_f64(
    list: &[usize],
    x_rows: usize,
    x_cols: usize,
    x_lanes: usize,
    x_col: usize,
    x: &[f64],
    y_rows: usize,
    y_cols: usize,
    y_lanes: usize,
    y_col: usize,
    y: &mut [f64],
) -> u8
    ensures { ScatterAnswers result list.now (column x_rows x_cols x_lanes x_col) x.now (column y_rows y_cols y_lanes y_col) y.old y.new }
{
    let from = column!(x_rows, x_cols, x_lanes, x_col);
    let to = column!(y_rows, y_cols, y_lanes, y_col);
    number(index::scatter(from, x, list, to, y))
}

/// The mean over the rows of the square of x / (|y|·rtol + atol), the greatest over the lanes.
#[tactic(auto, using(crate::proofs::Answered::took, crate::proofs::Answered::turned_down))]
#[unsafe(no_mangle)]
pub extern "C" fn konsjift_squared_norm_f64(
    x_rows: usize,
    x_cols: usize,
    x_lanes: usize,
    x_col: usize,
    x: &[f64],
    y_rows: usize,
    y_cols: usize,
    y_lanes: usize,
    y_col: usize,
    y: &[f64],
    atol_rows: usize,
    atol_cols: usize,
    atol_lanes: usize,
    atol_col: usize,
    atol: &[f64],
    rtol: f64,
    norm: &mut f64,
) -> u8
    ensures { NormAnswers binary64 result (column x_rows x_cols x_lanes x_col) x.now (column y_rows y_cols y_lanes y_col) y.now (column atol_rows atol_cols atol_lanes atol_col) atol.now rtol norm.old norm.new }
{
    let error = column!(x_rows, x_cols, x_lanes, x_col);
    let state = column!(y_rows, y_cols, y_lanes, y_col);
    let least = column!(atol_rows, atol_cols, atol_lanes, atol_col);
    match norm::squared_norm(error, x, state, y, Scale(rtol), least, atol) {
        Ok(value) => {
            *norm = value;
            0
        }
        Err(refusal) => refusal.number(),
    }
}

/// Whether some g1 is zero, the greatest fraction over the rows whose signs differ, and its row.
#[tactic(auto, using(crate::proofs::Roots::root_took, crate::proofs::Roots::root_turned_down))]
#[unsafe(no_mangle)]
pub extern "C" fn konsjift_root_finding_f64(
    g0_rows: usize,
    g0_cols: usize,
    g0_lanes: usize,
    g0_col: usize,
    g0: &[f64],
    g1_rows: usize,
    g1_cols: usize,
    g1_lanes: usize,
    g1_col: usize,
    g1: &[f64],
    found: &mut u8,
    fraction: &mut f64,
    row: &mut i32,
) -> u8
    ensures { RootAnswers binary64 result (column g0_rows g0_cols g0_lanes g0_col) g0.now (column g1_rows g1_cols g1_lanes g1_col) g1.now found.old fraction.old row.old found.new fraction.new row.new }
{
    let before = column!(g0_rows, g0_cols, g0_lanes, g0_col);
    let after = column!(g1_rows, g1_cols, g1_lanes, g1_col);
    match norm::root_finding(before, g0, after, g1) {
        Ok((zero, part, place)) => {
            *found = zero as u8;
            *fraction = part;
            *row = place;
            0
        }
        Err(refusal) => refusal.number(),
    }
}
