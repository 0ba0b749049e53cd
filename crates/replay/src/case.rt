//! A case: what a call is handed.

use crate::bits::Stored;
use crate::fields::{Fields, Unread, count, counts, floats};
use shape::{Column, TableShape};
use std::alloc::Global;

/// A table or a column of one, with its memory.
#[derive(Drop)]
pub struct Operand<S> {
    pub column: Column,
    pub data: Vec<S>,
}

/// All but the last operand, which a call writes: of three they are `first` and `second`, of two
/// `second` alone.
#[derive(Drop)]
pub struct Case<S> {
    pub counts: Vec<usize>,
    pub factors: Vec<S>,
    pub numbers: Vec<S>,
    pub list: Vec<usize>,
    pub sources: Vec<usize>,
    pub work: usize,
    pub first: Operand<S>,
    pub second: Operand<S>,
}

/// How many operands a call has.
fn operand_count(call: &str) -> u8 {
    match call {
        "batched_axpy" | "gemv" | "squared_norm" | "scale_add_and_assign" => 3,
        "mul_cols_by" | "mul_cols_by_transpose" | "mul_assign" | "div_assign" | "fill" => 1,
        "fill_index" | "assign_at_indices" | "table_mul_assign" | "table_fill" => 1,
        _ => 2,
    }
}

pub fn read_operand<S: Stored>(
    alloc: Global,
    there: bool,
    fields: &mut Fields,
) -> Result<Operand<S>, Unread> {
    if !there {
        return Ok(Operand {
            column: Column::vector(0, 0),
            data: Vec::new(alloc),
        });
    }
    let of = TableShape {
        rows: count(fields)?,
        cols: count(fields)?,
        lanes: count(fields)?,
    };
    let column = of.column(count(fields)?);
    let data = floats(alloc, fields)?;
    Ok(Operand { column, data })
}

pub fn read_case<S: Stored>(
    alloc: Global,
    call: &str,
    fields: &mut Fields,
) -> Result<Case<S>, Unread> {
    let operands = operand_count(call);
    Ok(Case {
        counts: counts(alloc, fields)?,
        factors: floats(alloc, fields)?,
        numbers: floats(alloc, fields)?,
        list: counts(alloc, fields)?,
        sources: counts(alloc, fields)?,
        work: count(fields)?,
        first: read_operand(alloc, operands > 2, fields)?,
        second: read_operand(alloc, operands > 1, fields)?,
    })
}

impl<S: Stored> Case<S> {
    pub fn count(&self, i: usize) -> Option<usize> {
        self.counts.as_slice().get(i).copied()
    }

    pub fn factor(&self, i: usize) -> Option<S> {
        self.factors.as_slice().get(i).copied()
    }
}
