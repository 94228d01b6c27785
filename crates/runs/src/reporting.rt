// The lines of a needle report, and the vectors of standard input as the report takes them (the paper, the needle
// report).
ghost use Rattle.std.specs.Prelude.{◌≡◌, [], ◌∷◌, ◌+◌, ◌*◌, ◌<◌, ◌≤◌, length, take, drop};
ghost use Rattle.plan.specs.Outcome.{put};
ghost use Rattle.plan.specs.Report.{in_turn};
ghost use Rattle.plan.specs.Reporter.{needle_line};
ghost use Rattle.runs.specs.reporting.Packing.{packed, packed_into};
ghost use Rattle.runs.specs.reporting.Fitting.{fitting_lines};

use codec::numbers;
use tables::lesser;
use write::print::write_lines;

// The bytes that are enough for a line: a letter, 20 digits and a space, and four times ten digits and a byte.
const LINE: usize = 66;

// A needle's line from a position on: a letter with its number, and its four numbers. The position after it.
fn put_needle(letter: u8, number: usize, row: &[u32], out: &mut [u8], at: usize) -> usize
    requires row_len { length row.now ≡ 4 }
    requires at_in_bounds { at + 66 ≤ length out.old }
    ensures value { result ≡ at + length (needle_line letter number row.now) }
    ensures upper_bound { result ≤ at + 66 }
    ensures out_after { out.new ≡ put out.old at (needle_line letter number row.now) }
{
    out[at] = letter;
    let end = numbers::put_digits(out, at + 1, number);
    out[end] = b' ';
    write_lines(out, end + 1, row, 4, 1)
}

// The lines of n needles, whose numbers start at `first` in table 6, from a position on. The position after them.
fn put_needles(letter: u8, n: usize, six: &[u32], first: usize, out: &mut [u8], at: usize) -> usize
    requires n_in_bounds { 4 * (first + n) ≤ length six.now }
    requires n_in_bounds_2 { at + 66 * n ≤ length out.old }
    ensures value { result ≡ at + length (in_turn (λ i. needle_line letter i
        (take 4 (drop (4 * (first + i)) six.now))) n) }
    ensures upper_bound { result ≤ at + 66 * n }
    ensures out_after { out.new ≡ put out.old at
        (in_turn (λ i. needle_line letter i (take 4 (drop (4 * (first + i)) six.now))) n) }
{
    let mut next = at;
    for i in 0..n {
        let row = 4 * (first + i);
        next = put_needle(letter, i, &six[row..row + 4], out, next);
    }
    next
}

// The lines of a report, the outputs' and then the latches', from the start of a buffer, of as many needles as
// table 6 and the buffer have room for; how many bytes.
pub fn put_report(outputs: usize, latches: usize, six: &[u32], out: &mut [u8]) -> usize
    ensures value { result ≡ length (fitting_lines outputs latches six.now out.old) }
    ensures out_after { out.new ≡ put out.old 0
        (fitting_lines outputs latches six.now out.old) }
{
    let rows = lesser(six.len() / 4, out.len() / LINE);
    let o = lesser(outputs, rows);
    let l = lesser(latches, rows - o);
    let next = put_needles(b'o', o, six, 0, out, 0);
    put_needles(b'l', l, six, o, out, next)
}

// A byte goes to a position, unless it ends a line; the position after it.
fn keep(b: u8, out: &mut [u8], at: usize) -> usize
    requires { at < length out.old }
    ensures value { result ≡ at + length (packed (b ∷ [])) }
    ensures out_after { out.new ≡ put out.old at (packed (b ∷ [])) }
{
    if b == b'\n' {
        return at;
    }
    out[at] = b;
    at + 1
}

// Lines without their ends, one after the other, as a report takes vectors, of as many bytes as the buffer has; how
// many are left of them.
pub fn pack(lines: &[u8], out: &mut [u8]) -> usize
    ensures value { result ≡ length (packed_into out.old lines.now) }
    ensures upper_bound { result ≤ length out.new }
    ensures out_after { out.new ≡ put out.old 0 (packed_into out.old lines.now) }
{
    let taken = lesser(lines.len(), out.len());
    let mut n = 0;
    for b in &lines[..taken] {
        n = keep(*b, out, n);
    }
    n
}
