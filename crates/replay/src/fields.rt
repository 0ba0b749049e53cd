//! The fields of a line, parted by tabs: counts in decimal, floats by their bits, and lists, each
//! its count and then its items.

use crate::bits::Stored;
use std::alloc::{AllocError, AllocFailed, Global};
use std::str::Split;

/// Why a line was not replayed.
#[derive(Debug, Drop)]
pub enum Unread {
    Malformed,
    NoMemory,
}

impl From<AllocError> for Unread {
    fn from(_: AllocError) -> Unread {
        Unread::NoMemory
    }
}

impl<T: Drop> From<AllocFailed<T>> for Unread {
    fn from(_: AllocFailed<T>) -> Unread {
        Unread::NoMemory
    }
}

/// What is left of a line.
pub type Fields<'a> = Split<'a, char>;

pub fn word<'a>(fields: &mut Fields<'a>) -> Result<&'a str, Unread> {
    fields.next().ok_or(Unread::Malformed)
}

pub fn count(fields: &mut Fields) -> Result<usize, Unread> {
    word(fields)?
        .parse::<usize>()
        .map_err(|_| Unread::Malformed)
}

pub fn float<S: Stored>(fields: &mut Fields) -> Result<S, Unread> {
    S::read(word(fields)?).ok_or(Unread::Malformed)
}

pub fn counts(alloc: Global, fields: &mut Fields) -> Result<Vec<usize>, Unread> {
    let mut items = Vec::new(alloc);
    for _ in 0..count(fields)? {
        items.push(count(fields)?)?;
    }
    Ok(items)
}

pub fn floats<S: Stored>(alloc: Global, fields: &mut Fields) -> Result<Vec<S>, Unread> {
    let mut items = Vec::new(alloc);
    for _ in 0..count(fields)? {
        items.push(float(fields)?)?;
    }
    Ok(items)
}
