//! Replays lists of answers that were made outside of this library: each line of a file is a call
//! with its operands and what it must answer and leave, in bits.
#![tactic(auto)]

mod bits;
mod calls;
mod case;
mod fields;
mod judge;

use judge::replay;
use std::alloc::Global;
use std::{fs, io};

/// The answers of the judged Rust, and the published values of BLAS's own test.
const LISTS: [&str; 2] = ["cases.txt", "dblat1.txt"];

/// What became of the lines of a list.
#[derive(Clone, Copy)]
struct Tally {
    agree: u64,
    differ: u64,
    unread: u64,
}

/// Replays a list, and names the lines that do not agree.
fn replay_list(rt: &HostRuntime, alloc: Global, text: &str) -> io::Result<Tally> {
    let mut tally = Tally {
        agree: 0,
        differ: 0,
        unread: 0,
    };
    for (i, line) in text.lines().enumerate() {
        let word = match replay(alloc, line) {
            Ok(true) => {
                tally.agree = tally.agree.saturating_add(1);
                continue;
            }
            Ok(false) => {
                tally.differ = tally.differ.saturating_add(1);
                "differs"
            }
            Err(_) => {
                tally.unread = tally.unread.saturating_add(1);
                "cannot be read"
            }
        };
        println!(rt; "the line after {i} others {word}")?;
    }
    Ok(tally)
}

fn main(rt: HostRuntime) -> io::Result<()> {
    let alloc = rt.alloc();
    for name in LISTS {
        let text = fs::read_to_string(&rt, name)?;
        let tally = replay_list(&rt, alloc, text.as_str())?;
        let lines = text.as_str().lines().count();
        let Tally {
            agree,
            differ,
            unread,
        } = tally;
        println!(&rt;
            "{name}: {lines} lines, {agree} agree, {differ} differ, {unread} cannot be read"
        )?;
    }
    Ok(())
}
