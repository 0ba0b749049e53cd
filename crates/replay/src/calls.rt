//! The library's calls by their names, each on the operands that it takes.

use crate::bits::Stored;
use crate::case::{Case, Operand};
use index::cells;
use scalar::Scale;
use shape::Refusal;

/// What a call says, where there is a call of that name.
type Told = Option<Result<(), Refusal>>;

/// Calls on one operand, and what they need of work memory.
fn on_one<S: Stored>(call: &str, case: &Case<S>, y: &mut Operand<S>, work: &mut [S]) -> Told {
    let at = y.column;
    let ys = y.data.as_mut_slice();
    let numbers = case.numbers.as_slice();
    let list = case.list.as_slice();
    Some(match call {
        "mul_cols_by" => differences::mul_cols_by(at.of, ys, case.count(0)?, numbers, work),
        "mul_cols_by_transpose" => {
            differences::mul_cols_by_transpose(at.of, ys, case.count(0)?, numbers, work)
        }
        "mul_assign" => vector::mul_assign(Scale(case.factor(0)?), at, ys),
        "div_assign" => vector::div_assign(Scale(case.factor(0)?), at, ys),
        "fill" => vector::fill(case.factor(0)?, at, ys),
        "fill_index" => index::fill_index(case.count(0)?, case.factor(0)?, at, ys),
        "assign_at_indices" => index::assign_at_indices(list, case.factor(0)?, at, ys),
        "table_mul_assign" => vector::mul_assign(Scale(case.factor(0)?), at.of, ys),
        "table_fill" => vector::fill(case.factor(0)?, at.of, ys),
        _ => return None,
    })
}

/// Entry by entry from one operand into another.
fn entry_by_entry<S: Stored>(call: &str, x: &Operand<S>, y: &mut Operand<S>) -> Told {
    let (from, xs) = (x.column, x.data.as_slice());
    let (to, ys) = (y.column, y.data.as_mut_slice());
    Some(match call {
        "copy_from" => vector::copy_from(from, xs, to, ys),
        "add_assign" => vector::add_assign(from, xs, to, ys),
        "sub_assign" => vector::sub_assign(from, xs, to, ys),
        "sub_into" => vector::sub_into(from, xs, to, ys),
        "component_mul_assign" => vector::component_mul_assign(from, xs, to, ys),
        "component_div_assign" => vector::component_div_assign(from, xs, to, ys),
        "table_copy_from" => vector::copy_from(from.of, xs, to.of, ys),
        "table_add_assign" => vector::add_assign(from.of, xs, to.of, ys),
        "table_sub_assign" => vector::sub_assign(from.of, xs, to.of, ys),
        "table_sub_into" => vector::sub_into(from.of, xs, to.of, ys),
        _ => return None,
    })
}

/// From one operand into another, with factors, coefficients or a list.
fn on_two<S: Stored>(call: &str, case: &Case<S>, y: &mut Operand<S>) -> Told {
    let (from, xs) = (case.second.column, case.second.data.as_slice());
    let (to, ys) = (y.column, y.data.as_mut_slice());
    let numbers = case.numbers.as_slice();
    let list = case.list.as_slice();
    Some(match call {
        "axpy" => vector::axpy(
            Scale(case.factor(0)?),
            from,
            xs,
            Scale(case.factor(1)?),
            to,
            ys,
        ),
        "gemv_cols" => {
            let (a, b) = (Scale(case.factor(0)?), Scale(case.factor(1)?));
            let (start, end) = (case.count(0)?, case.count(1)?);
            product::gemv_cols(a, from.of, xs, start, end, numbers, b, to, ys)
        }
        "ger_cols" => {
            let a = Scale(case.factor(0)?);
            let (start, end) = (case.count(0)?, case.count(1)?);
            product::ger_cols(a, numbers, from, xs, to.of, ys, start, end)
        }
        "update_backward_diff" => {
            differences::update_backward_diff(to.of, ys, case.count(0)?, from, xs)
        }
        "gather" => index::gather(from, xs, list, to, ys),
        "scatter" => index::scatter(from, xs, list, to, ys),
        "copy_from_indices" => index::copy_from_indices(from, xs, list, to, ys),
        _ => return None,
    })
}

/// The calls on whole tables.
fn on_tables<S: Stored>(call: &str, case: &Case<S>, y: &mut Operand<S>) -> Told {
    let (from, xs) = (case.second.column, case.second.data.as_slice());
    let (to, ys) = (y.column, y.data.as_mut_slice());
    let list = case.list.as_slice();
    Some(match call {
        "set_column" => table::set_column(case.count(0)?, from, xs, to.of, ys),
        "add_column_to_vector" => {
            table::add_column_to_vector(from.of, xs, case.count(0)?, to, ys)
        }
        "add_columns_to_batched_vector" => {
            table::add_columns_to_batched_vector(from.of, xs, to, ys)
        }
        "from_diagonal" => table::from_diagonal(from, xs, to.of, ys),
        "resize_cols" => table::resize_cols(from.of, xs, to.of, ys),
        "table_gather" => cells::gather(from.of, xs, list, to.of, ys),
        "set_data_with_indices" => {
            cells::set_data_with_indices(list, case.sources.as_slice(), from, xs, to.of, ys)
        }
        _ => return None,
    })
}

/// From two operands into a third.
fn on_three<S: Stored>(call: &str, case: &Case<S>, y: &mut Operand<S>) -> Told {
    let (first, firsts) = (case.first.column, case.first.data.as_slice());
    let (from, xs) = (case.second.column, case.second.data.as_slice());
    let (to, ys) = (y.column, y.data.as_mut_slice());
    Some(match call {
        "batched_axpy" => {
            let b = Scale(case.factor(0)?);
            vector::batched_axpy(first, firsts, from, xs, b, to, ys)
        }
        "gemv" => {
            let (a, b) = (Scale(case.factor(0)?), Scale(case.factor(1)?));
            product::gemv(a, first.of, firsts, from, xs, b, to, ys)
        }
        "scale_add_and_assign" => {
            let b = Scale(case.factor(0)?);
            table::scale_add_and_assign(first.of, firsts, b, from.of, xs, to.of, ys)
        }
        _ => return None,
    })
}

/// The call of a name, which writes y and maybe work memory.
pub fn by_name<S: Stored>(
    call: &str,
    case: &Case<S>,
    y: &mut Operand<S>,
    work: &mut [S],
) -> Option<Result<(), Refusal>> {
    if let Some(told) = on_two(call, case, y) {
        return Some(told);
    }
    if let Some(told) = on_tables(call, case, y) {
        return Some(told);
    }
    if let Some(told) = on_three(call, case, y) {
        return Some(told);
    }
    if let Some(told) = on_one(call, case, y, work) {
        return Some(told);
    }
    entry_by_entry(call, &case.second, y)
}
