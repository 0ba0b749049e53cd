//! One line: the call is made, and its answer and what it left are held against the line's.

use crate::bits::Stored;
use crate::calls::by_name;
use crate::case::{Case, Operand, read_case, read_operand};
use crate::fields::{Fields, Unread, count, floats, word};
use scalar::{Scalar, Scale};
use shape::Refusal;
use std::alloc::Global;

/// The memories hold the same floats.
fn alike<S: Stored>(a: &[S], b: &[S]) -> bool {
    a.len() == b.len() && a.iter().zip(b).all(|(x, y)| x.bits() == y.bits())
}

/// Work memory begins as zeros.
fn untouched<S: Stored>(work: &[S]) -> bool {
    work.iter().all(|v| v.bits() == 0)
}

/// The answer is the line's, and where that is acceptance, `written` is what the line lists;
/// where it is a refusal, `kept` says that nothing was written.
fn matches<S: Stored>(
    alloc: Global,
    told: Result<(), Refusal>,
    written: &[S],
    kept: bool,
    fields: &mut Fields,
) -> Result<bool, Unread> {
    match (word(fields)?, told) {
        ("accepted", Ok(())) => {
            let listed = floats::<S>(alloc, fields)?;
            Ok(alike(written, listed.as_slice()) && passes_published(alloc, written, fields)?)
        }
        ("refused", Err(refusal)) => Ok(kept && count(fields)? == refusal.number() as usize),
        _ => Ok(false),
    }
}

/// Where the line goes on with published values, BLAS's own test takes ours.
fn passes_published<S: Stored>(
    alloc: Global,
    written: &[S],
    fields: &mut Fields,
) -> Result<bool, Unread> {
    match fields.next() {
        Some("published") => {
            let published = floats::<S>(alloc, fields)?;
            let mut pairs = written.iter().zip(published.as_slice());
            Ok(written.len() == published.len() && pairs.all(|(x, p)| x.passes(*p)))
        }
        rest => Ok(rest.is_none()),
    }
}

/// A call that writes its last operand alone.
fn replay_one_written<S: Stored>(
    alloc: Global,
    call: &str,
    case: &Case<S>,
    y: &mut Operand<S>,
    fields: &mut Fields,
) -> Result<bool, Unread> {
    let before = y.data.clone()?;
    let mut work = Vec::from_elem(alloc, Scalar::zero(), case.work)?;
    let told = by_name(call, case, y, work.as_mut_slice()).ok_or(Unread::Malformed)?;
    let kept = alike(before.as_slice(), y.data.as_slice());
    matches(
        alloc,
        told,
        y.data.as_slice(),
        kept && untouched(work.as_slice()),
        fields,
    )
}

/// The transpose of the update writes both of its operands.
fn replay_transpose<S: Stored>(
    alloc: Global,
    case: &mut Case<S>,
    d: &mut Operand<S>,
    fields: &mut Fields,
) -> Result<bool, Unread> {
    let order = case.count(0).ok_or(Unread::Malformed)?;
    let mut work = Vec::from_elem(alloc, Scalar::zero(), case.work)?;
    let table = &mut case.second;
    let mut before = table.data.clone()?;
    before.extend_from_slice(d.data.as_slice())?;
    let told = differences::update_backward_diff_transpose(
        table.column.of,
        table.data.as_mut_slice(),
        order,
        d.column,
        d.data.as_mut_slice(),
        work.as_mut_slice(),
    );
    let mut after = table.data.clone()?;
    after.extend_from_slice(d.data.as_slice())?;
    let kept = alike(before.as_slice(), after.as_slice()) && untouched(work.as_slice());
    matches(alloc, told, after.as_slice(), kept, fields)
}

fn replay_norm<S: Stored>(
    alloc: Global,
    case: &Case<S>,
    atol: &Operand<S>,
    fields: &mut Fields,
) -> Result<bool, Unread> {
    let (x, y) = (&case.first, &case.second);
    let rtol = Scale(case.factor(0).ok_or(Unread::Malformed)?);
    let answer = norm::squared_norm(
        x.column,
        x.data.as_slice(),
        y.column,
        y.data.as_slice(),
        rtol,
        atol.column,
        atol.data.as_slice(),
    );
    match answer {
        Ok(norm) => {
            let written = Vec::from_elem(alloc, norm, 1)?;
            matches(alloc, Ok(()), written.as_slice(), true, fields)
        }
        Err(refusal) => matches::<S>(alloc, Err(refusal), &[], true, fields),
    }
}

/// The answer is found, the row and a list of one, the fraction.
fn replay_roots<S: Stored>(
    alloc: Global,
    g0: &Operand<S>,
    g1: &Operand<S>,
    fields: &mut Fields,
) -> Result<bool, Unread> {
    let answer = norm::root_finding(g0.column, g0.data.as_slice(), g1.column, g1.data.as_slice());
    match answer {
        Err(refusal) => matches::<S>(alloc, Err(refusal), &[], true, fields),
        Ok((found, fraction, row)) => {
            let accepted = word(fields)? == "accepted";
            let same_found = count(fields)? == found as usize;
            let listed_row = word(fields)?.parse::<i32>().map_err(|_| Unread::Malformed)?;
            let listed = floats::<S>(alloc, fields)?;
            let same_fraction = match listed.as_slice() {
                [only] => only.bits() == fraction.bits(),
                _ => false,
            };
            Ok(accepted && same_found && listed_row == row && same_fraction)
        }
    }
}

/// The rest of a line, in one of the two formats.
fn replay_in<S: Stored>(alloc: Global, call: &str, fields: &mut Fields) -> Result<bool, Unread> {
    let mut case = read_case::<S>(alloc, call, fields)?;
    let mut last = read_operand(alloc, true, fields)?;
    match call {
        "update_backward_diff_transpose" => {
            replay_transpose(alloc, &mut case, &mut last, fields)
        }
        "squared_norm" => replay_norm(alloc, &case, &last, fields),
        "root_finding" => replay_roots(alloc, &case.second, &last, fields),
        _ => replay_one_written(alloc, call, &case, &mut last, fields),
    }
}

/// Whether the library answers a line as it stands.
pub fn replay(alloc: Global, line: &str) -> Result<bool, Unread> {
    let mut fields = line.split('\t');
    let call = word(&mut fields)?;
    match word(&mut fields)? {
        "64" => replay_in::<f64>(alloc, call, &mut fields),
        "32" => replay_in::<f32>(alloc, call, &mut fields),
        _ => Err(Unread::Malformed),
    }
}
