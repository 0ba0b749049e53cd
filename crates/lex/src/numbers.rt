//! Numbers in decimal: plain ones, and values with a sign.
ghost use Rattle.std.specs.Prelude.{◌≡◌, ◌≤◌, length, IfSome};
ghost use Rattle.lex.specs.Numbers.{spelt, plain_of, magnitude_of, value_of};

/// The number that at most ten digits spell; none if some byte is no digit.
fn number(text: &[u8]) -> Option<u64>
    requires { length text.now ≤ 10 }
    ensures { result ≡ spelt 0 text.now }
{
    let mut n: u64 = 0;
    let mut rest = text;
    while let [first, tail @ ..] = rest {
        if !first.is_ascii_digit() {
            return None;
        }
        n = n * 10 + (*first - b'0') as u64;
        rest = tail;
    }
    Some(n)
}

/// A plain number: 1 to 9 digits.
pub fn plain(text: &[u8]) -> Option<usize>
    ensures { result ≡ plain_of text.now }
{
    if text.is_empty() || text.len() > 9 {
        return None;
    }
    let n = number(text)?;
    Some(n as usize)
}

/// A magnitude: 1 to 10 digits, at most 2,147,483,646.
fn magnitude(text: &[u8]) -> Option<u64>
    ensures is { result ≡ magnitude_of text.now }
    ensures small { IfSome result (λ n. n ≤ 2147483646) }
{
    if text.is_empty() || text.len() > 10 {
        return None;
    }
    let n = number(text)?;
    if n > 2147483646 {
        return None;
    }
    Some(n)
}

/// A value: a magnitude, perhaps after a minus.
pub fn value(text: &[u8]) -> Option<i64>
    ensures { result ≡ value_of text.now }
{
    match text {
        [b'-', rest @ ..] => magnitude(rest).map(|n| -(n as i64)),
        _ => magnitude(text).map(|n| n as i64),
    }
}
