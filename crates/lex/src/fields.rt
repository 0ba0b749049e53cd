//! The fields of a line, parted by tabs, each read by the rule of what it may spell.
ghost use Rattle.std.specs.Prelude.{◌≡◌, ℕ, ◌≤◌, List, length, take, None, Option, MatchOption};
ghost use Rattle.lex.specs.Lines.{before, more};
ghost use Rattle.lex.specs.Fields.{FieldsRead};
ghost use Rattle.lex.specs.Numbers.{all, plain_of, value_of};

use crate::numbers::{plain, value};

/// How many bytes stand before the first `mark`; all where there is none.
pub fn bytes_before(text: &[u8], mark: u8) -> usize
    ensures is { result ≡ before mark text.now }
    ensures within { result ≤ length text.now }
{
    let mut n: usize = 0;
    let mut rest = text;
    while let [first, tail @ ..] = rest {
        if *first == mark {
            return n;
        }
        n += 1;
        rest = tail;
    }
    n
}

/// What a field may spell, by a rule on its bytes.
pub trait Field: Copy {
    ghost rule: { List ℕ → Option Self };

    fn parse(bytes: &[u8]) -> Option<Self>
        ensures { result ≡ rule bytes.now };
}

impl Field for usize {
    ghost rule = { plain_of };

    fn parse(bytes: &[u8]) -> Option<usize> {
        plain(bytes)
    }
}

impl Field for i64 {
    ghost rule = { value_of };

    fn parse(bytes: &[u8]) -> Option<i64> {
        value(bytes)
    }
}

/// Reads fields, each after its tab, at most so many, into memory from a place on: how many they
/// are, and the bytes after them. Where there is no room it counts on, so that a malformed field
/// further on is found before a limit that is passed.
pub fn read_fields<'a, F: Field>(
    rest: &'a [u8],
    most: usize,
    to: &mut [F],
    at: usize,
) -> Option<(usize, &'a [u8])>
    ensures fields { MatchOption result (all F.Field.rule (take most (more rest.now)) ≡ None) (λ x. FieldsRead F.Field.rule (more rest.now) most to.old to.new at x.0 x.1.now) }
    ensures before { take at to.new ≡ take at to.old }
{
    let room = to.len().saturating_sub(at);
    let mut n: usize = 0;
    let mut left = rest;
    while n < most {
        let [b'\t', tail @ ..] = left else {
            break;
        };
        let k = bytes_before(tail, b'\t');
        let x = F::parse(&tail[..k])?;
        if n < room {
            to[at + n] = x;
        }
        n += 1;
        left = &tail[k..];
    }
    Some((n, left))
}
