//! The text program: reads a text from the file that is named, or from standard input, and prints the
//! answer to it.
#![tactic(auto)]

ghost use Rattle.std.specs.Prelude.{◌≤◌, length, IfOk};

use std::env;
use std::fs::File;
use std::io::{self, Read};
use std::process::ExitCode;
use text::run_text;

/// One byte more than a text may have: what is longer has the same answer as its front.
const LIMIT: usize = 16385;

/// Bytes from the reader until it ends or the buffer is full: how many.
fn fill<R: Read>(reader: &mut R, buffer: &mut [u8]) -> io::Result<usize>
    ensures { IfOk result (λ len. len ≤ length buffer.old) }
{
    let mut len = 0;
    for _ in 0..u64::MAX {
        if len >= buffer.len() {
            break;
        }
        let count = reader.read(&mut buffer[len..])?;
        if count == 0 {
            break;
        }
        len += count;
    }
    Ok(len)
}

/// The answer to a text on standard output.
fn print_answer(rt: &HostRuntime, text: &[u8]) -> io::Result<()> {
    let mut out = [0; 65536];
    match run_text(text, &mut out) {
        Ok(len) => rt.stdout().write_all(&out[..len]),
        Err(refusal) => eprintln!(rt; "konsjift: {refusal}"),
    }
}

/// The front of the file, or of standard input where none is named.
fn read_front(rt: &HostRuntime, path: Option<&str>, buffer: &mut [u8]) -> io::Result<usize>
    ensures { IfOk result (λ len. len ≤ length buffer.old) }
{
    match path {
        Some(path) => fill(&mut File::open(rt, path)?, buffer),
        None => fill(&mut rt.stdin(), buffer),
    }
}

fn main(rt: HostRuntime) -> io::Result<ExitCode> {
    let mut args = env::args(&rt)?;
    args.next();
    let path = args.next();
    let mut buffer = [0; LIMIT];
    match read_front(&rt, path.as_ref().map(|path| path.as_str()), &mut buffer) {
        Ok(len) => {
            print_answer(&rt, &buffer[..len])?;
            Ok(ExitCode::SUCCESS)
        }
        Err(error) => {
            match path {
                Some(path) => eprintln!(rt; "konsjift: cannot read {path}: {error}")?,
                None => eprintln!(rt; "konsjift: cannot read standard input: {error}")?,
            }
            Ok(ExitCode::FAILURE)
        }
    }
}
