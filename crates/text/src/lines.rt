//! Lines of a word and numbers, written into lent bytes from a place on. Each function answers the
//! place past what it wrote.
ghost use Rattle.std.specs.Prelude.{◌≡◌, ◌+◌, ◌≤◌, length, decimal, slice_index};
ghost use Rattle.text.specs.Lines.{Written, line, fault_line, step_lines, lane_lines};

/// A number in decimal.
fn put_number(out: &mut [u8], at: usize, n: u64) -> usize
    requires { at + length (decimal n) ≤ length out.old }
    ensures { Written out.old out.new at (decimal n) result }
{
    if n < 10 {
        out[at] = b'0' + n as u8;
        at + 1
    } else {
        let here = put_number(out, at, n / 10);
        out[here] = b'0' + (n % 10) as u8;
        here + 1
    }
}

/// A word as it is.
fn put_word(out: &mut [u8], at: usize, word: &str) -> usize
    requires { at + length word.now ≤ length out.old }
    ensures { Written out.old out.new at word.now result }
{
    let end = at + word.len();
    out[at..end].copy_from_slice(word.as_bytes());
    end
}

/// A word and its numbers, each after a tab, ended by a newline.
fn put_line(out: &mut [u8], at: usize, word: &str, numbers: &[u64]) -> usize
    requires { at + length (line word.now numbers.now) ≤ length out.old }
    ensures { Written out.old out.new at (line word.now numbers.now) result }
{
    let mut here = put_word(out, at, word);
    for number in numbers {
        out[here] = b'\t';
        here = put_number(out, here + 1, *number);
    }
    out[here] = b'\n';
    here + 1
}

/// The line of a text's fault.
pub(crate) fn put_fault(out: &mut [u8], at: usize, place: usize, number: u8) -> usize
    requires { at + length (fault_line place number) ≤ length out.old }
    ensures { Written out.old out.new at (fault_line place number) result }
{
    put_line(out, at, "fault", &[place as u64, number as u64])
}

/// A line for each step, with its place and its number.
pub(crate) fn put_steps(out: &mut [u8], at: usize, numbers: &[u8]) -> usize
    requires { at + length (step_lines 0 numbers.now) ≤ length out.old }
    ensures { Written out.old out.new at (step_lines 0 numbers.now) result }
{
    let mut here = at;
    for (place, number) in numbers.iter().enumerate() {
        here = put_line(out, here, "step", &[place as u64, *number as u64]);
    }
    here
}

/// A line for each lane, with its two pairings.
pub(crate) fn put_lanes(out: &mut [u8], at: usize, after: &[u64], before: &[u64]) -> usize
    requires lanes { length before.now ≡ length after.now }
    requires room { at + length (lane_lines (length after.now) (slice_index after.now) (slice_index before.now)) ≤ length out.old }
    ensures { Written out.old out.new at (lane_lines (length after.now) (slice_index after.now) (slice_index before.now)) result }
{
    let mut here = at;
    for (lane, end) in after.iter().enumerate() {
        here = put_line(out, here, "lane", &[lane as u64, *end, before[lane]]);
    }
    here
}
