//! What an elementwise call works on: a column of every lane, or a whole table.
ghost use Rattle.std.specs.Prelude.{◌≡◌, ℕ, Bool, List, length, OnOk, OnErr};
ghost use Rattle.shape.specs.Refusals.{answer, first_of};
ghost use Rattle.shape.specs.Operands.{shape_tests, column_tests, pair_tests, table_tests};
ghost use Rattle.elementwise.specs.Entrywise.{Entrywise, Tablewise, Revised, RevisedTable};

use crate::revised::revise_lanes;
use crate::rules::{Revision, Rule};
use crate::zipped::zip_bands;
use shape::check::{check_column, check_pair, check_shape, check_tables};
use shape::{Column, Refusal, TableShape};

/// An operand names entries of a memory that is lent beside it. A call on one operand, and a call
/// that reads a source into a destination of the same kind, refuse by the operand's own tests.
pub trait Operand: Copy {
    ghost tests: { Self → ℕ → List (ℕ × Bool) };

    ghost pair_tests: { Self → ℕ → Self → ℕ → List (ℕ × Bool) };

    // Each entry that y names holds a v with R y v for the old entry y, and nothing else moved.
    ghost Revised: { (S : Type 0) → Self → (S → S → Type 0) → List S → List S → Type 0 };

    // Each entry that y names holds a v with R x y v, for x's entry at its place and the old entry
    // y, and nothing else moved.
    ghost Entrywise: { (S : Type 0) → Self → List S → Self → (S → S → S → Type 0) → List S → List S → Type 0 };

    /// Every entry that y names becomes what the rule makes of it.
    fn revise<S: Copy, R: Revision<S>>(rule: R, y: Self, ys: &mut [S]) -> Result<(), Refusal>
        ensures verdict { answer result ≡ first_of (tests y (length ys.old)) }
        ensures accepted { OnOk result (Revised S y (R.Revision.made rule) ys.old ys.new) }
        ensures refused { OnErr result (ys.new ≡ ys.old) };

    /// Every entry that y names becomes what the rule makes of x's entry and of its own.
    fn zip<S: Copy, R: Rule<S>>(
        rule: R,
        x: Self,
        xs: &[S],
        y: Self,
        ys: &mut [S],
    ) -> Result<(), Refusal>
        ensures verdict { answer result ≡ first_of (pair_tests x (length xs.now) y (length ys.old)) }
        ensures accepted { OnOk result (Entrywise S x xs.now y (R.Rule.made rule) ys.old ys.new) }
        ensures refused { OnErr result (ys.new ≡ ys.old) };
}

/// The rows of one column, in every lane.
impl Operand for Column {
    ghost tests = { column_tests };

    ghost pair_tests = { pair_tests };

    ghost Revised = { λ S. Revised {S = S} };

    ghost Entrywise = { λ S. Entrywise {S = S} };

    fn revise<S: Copy, R: Revision<S>>(rule: R, y: Column, ys: &mut [S]) -> Result<(), Refusal> {
        check_column(y, ys.len())?;
        revise_lanes(rule, y.band(), ys);
        Ok(())
    }

    fn zip<S: Copy, R: Rule<S>>(
        rule: R,
        x: Column,
        xs: &[S],
        y: Column,
        ys: &mut [S],
    ) -> Result<(), Refusal> {
        check_pair(x, xs.len(), y, ys.len())?;
        zip_bands(rule, x.band(), xs, y.band(), ys);
        Ok(())
    }
}

/// The cells of all columns, in every lane.
impl Operand for TableShape {
    ghost tests = { shape_tests };

    ghost pair_tests = { table_tests };

    ghost Revised = { λ S. RevisedTable {S = S} };

    ghost Entrywise = { λ S. Tablewise {S = S} };

    fn revise<S: Copy, R: Revision<S>>(
        rule: R,
        y: TableShape,
        ys: &mut [S],
    ) -> Result<(), Refusal> {
        check_shape(y, ys.len())?;
        revise_lanes(rule, y.band(), ys);
        Ok(())
    }

    fn zip<S: Copy, R: Rule<S>>(
        rule: R,
        x: TableShape,
        xs: &[S],
        y: TableShape,
        ys: &mut [S],
    ) -> Result<(), Refusal> {
        check_tables(x, xs.len(), y, ys.len())?;
        zip_bands(rule, x.band(), xs, y.band(), ys);
        Ok(())
    }
}
