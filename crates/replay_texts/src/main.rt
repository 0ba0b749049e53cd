//! Replays a table of texts: each must be answered with the bytes that stand beside it, and the rest of
//! the buffer must stay. Prints the texts that are answered otherwise, and how many agree.
#![tactic(auto)]

ghost use Rattle.std.specs.Prelude.{◌<◌};

use anyhow::{Context, Result};
use std::alloc::{AllocError, Global};
use std::fs;
use text::run_text;

/// What stands in the buffer before a call, and behind the answer after it.
const UNTOUCHED: u8 = 0xee;

fn hex_digit(byte: Option<&u8>) -> u8
    ensures { result < 16 }
{
    match byte {
        Some(b @ b'0'..=b'9') => *b - b'0',
        Some(b @ b'A'..=b'F') => *b - b'A' + 10,
        _ => 0,
    }
}

/// Bytes as the table writes them: a space for a tab, `/` for a newline, `%` and two digits for any
/// byte, `@` for the number.
fn push_plain(
    alloc: Global,
    bytes: &mut Vec<u8>,
    coded: &str,
    number: u32,
) -> Result<(), AllocError> {
    let coded = coded.as_bytes();
    let mut skip = 0;
    for (place, byte) in coded.iter().enumerate() {
        if skip > 0 {
            skip -= 1;
            continue;
        }
        match *byte {
            b' ' => bytes.push(b'\t')?,
            b'/' => bytes.push(b'\n')?,
            b'@' => {
                let digits = number.to_string(alloc)?;
                bytes.extend_from_slice(digits.as_bytes())?;
            }
            b'%' => {
                let high = hex_digit(coded.get(place + 1));
                let low = hex_digit(coded.get(place + 2));
                bytes.push(high * 16 + low)?;
                skip = 2;
            }
            byte => bytes.push(byte)?,
        }
    }
    Ok(())
}

/// `A-B:body`: the body once for each number from A to B.
fn push_repeated(alloc: Global, bytes: &mut Vec<u8>, coded: &str) -> Result<()> {
    let (range, body) = coded.split_once(':').context("a repetition has no body")?;
    let (first, last) = range.split_once('-').context("a repetition has no range")?;
    let first: u32 = first.parse().context("a repetition's first number")?;
    let last: u32 = last.parse().context("a repetition's last number")?;
    for number in first..=last {
        push_plain(alloc, bytes, body, number)?;
    }
    Ok(())
}

/// The bytes that a field of the table stands for.
fn expand(alloc: Global, coded: &str) -> Result<Vec<u8>> {
    let mut bytes = Vec::new(alloc);
    for part in coded.split('{') {
        match part.split_once('}') {
            Some((repeated, rest)) => {
                push_repeated(alloc, &mut bytes, repeated)?;
                push_plain(alloc, &mut bytes, rest, 0)?;
            }
            None => push_plain(alloc, &mut bytes, part, 0)?,
        }
    }
    Ok(bytes)
}

/// The text gets this answer, and the buffer keeps its other bytes.
fn agrees(text: &[u8], answer: &[u8]) -> bool {
    let mut out = [UNTOUCHED; 65536];
    match run_text(text, &mut out) {
        Ok(len) => &out[..len] == answer && out[len..].iter().all(|byte| *byte == UNTOUCHED),
        Err(_) => false,
    }
}

/// A buffer of another length is refused with 3, and nothing is written.
fn refuses(out: &mut [u8]) -> bool {
    match run_text(b"", out) {
        Ok(_) => false,
        Err(refusal) => refusal.number() == 3 && out.iter().all(|byte| *byte == UNTOUCHED),
    }
}

fn replay(rt: &HostRuntime, row: &str) -> Result<bool> {
    let (name, fields) = row.split_once(" | ").context("a row has no text")?;
    let (text, answer) = fields.split_once(" | ").context("a row has no answer")?;
    let text = expand(rt.alloc(), text)?;
    let answer = expand(rt.alloc(), answer)?;
    let agrees = agrees(&text, &answer);
    if !agrees {
        println!(rt; "answered otherwise: {name}")?;
    }
    Ok(agrees)
}

fn main(rt: HostRuntime) -> Result<()> {
    let table = fs::read_to_string(&rt, "texts.txt")?;
    let mut count: u32 = 0;
    let mut agreed: u32 = 0;
    for row in table.lines() {
        if row.starts_with('#') {
            continue;
        }
        count = count.saturating_add(1);
        if replay(&rt, row)? {
            agreed = agreed.saturating_add(1);
        }
    }
    println!(&rt; "{agreed} of {count} texts agree")?;
    let short = refuses(&mut [UNTOUCHED; 65535]);
    let long = refuses(&mut [UNTOUCHED; 65537]);
    println!(&rt; "a buffer too short is refused with 3: {short}, one too long: {long}")?;
    Ok(())
}
