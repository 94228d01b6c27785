// Lines of literals and of latches, and gates of the binary form, written into a buffer that has room (the paper,
// writing; AIGER report, sections 7 and 12). A writer asks for the length first, so that nothing is written where
// the buffer is too short.
ghost use Rattle.std.specs.Prelude.{◌≡◌, map, ◌+◌, ◌-◌, ◌*◌, ◌<◌, ◌≤◌, length};
ghost use Rattle.plan.specs.Circuit.{rows_of, gate_of};
ghost use Rattle.plan.specs.Bytes.{end_of, lines_of};
ghost use Rattle.plan.specs.Binary.{gate_bytes};
ghost use Rattle.plan.specs.Difference.{groups_of};
ghost use Rattle.plan.specs.Outcome.{put};
ghost use Rattle.write.specs.print.Words.{Begun, following, word_bytes, sides_bytes};
ghost use Rattle.write.specs.print.Latches.{next_line, latch_bytes, latch_rows};

use codec::{differences, numbers};
use plan::Lit;

// What stands after a number: a space if more follow in its line, the new line after the last.
fn end_of(left: usize) -> u8
    ensures { result ≡ end_of left }
{
    if left == 0 {
        return 10;
    }
    32
}

// How many words follow the next one in its line.
fn following(last: usize, left: usize) -> usize
    ensures { result ≡ following last left }
{
    if left == 0 {
        return last;
    }
    left - 1
}

// The bytes of n lines of k words.
pub fn lines_length(table: &[u32], k: usize, n: usize) -> usize
    requires k_nonzero { 0 < k }
    requires n_in_bounds { k * n ≤ length table.now }
    requires n_bound { k * n ≤ 16777216 }
    ensures value { result ≡ length (lines_of (rows_of k n table.now)) }
    ensures upper_bound { result ≤ 11 * (k * n) }
{
    let mut sum: usize = 0;
    for word in &table[..k * n] {
        sum += numbers::digits_in(*word as usize) + 1;
    }
    sum
}

// One number and what stands after it; the position after both.
fn write_word(out: &mut [u8], at: usize, word: u32, left: usize) -> usize
    requires { at + length (word_bytes left word) ≤ length out.old }
    ensures value { result ≡ at + length (word_bytes left word) }
    ensures out_after { out.new ≡ put out.old at (word_bytes left word) }
{
    let end = numbers::put_digits(out, at, word as usize);
    out[end] = end_of(left);
    end + 1
}

// n lines of k words from a position on; the position after them.
pub fn write_lines(out: &mut [u8], at: usize, table: &[u32], k: usize, n: usize) -> usize
    requires k_nonzero { 0 < k }
    requires n_in_bounds { k * n ≤ length table.now }
    requires n_bound { k * n ≤ 16777216 }
    requires table_in_bounds { at + length (lines_of (rows_of k n table.now)) ≤ length out.old }
    ensures value { result ≡ at + length (lines_of (rows_of k n table.now)) }
    ensures out_after { out.new ≡ put out.old at (lines_of (rows_of k n table.now)) }
{
    let last = k - 1;
    let mut next = at;
    let mut left = last;
    for word in &table[..k * n] {
        next = write_word(out, next, *word, left);
        left = following(last, left);
    }
    next
}

// The bytes of a latch's next state and of its reset, which is left off if it is 0.
fn next_length(next: u32, reset: u32) -> usize
    ensures value { result ≡ length (next_line next reset) }
    ensures upper_bound { result ≤ 22 }
{
    let first = numbers::digits_in(next as usize) + 1;
    if reset == 0 {
        return first;
    }
    first + numbers::digits_in(reset as usize) + 1
}

// The bytes of a latch's line; binary form leaves the current state out.
fn latch_length(binary: bool, current: u32, next: u32, reset: u32) -> usize
    ensures value { result ≡ length (latch_bytes binary current next reset) }
    ensures upper_bound { result ≤ 33 }
{
    let last = next_length(next, reset);
    if binary {
        return last;
    }
    numbers::digits_in(current as usize) + 1 + last
}

// The bytes of the lines of n latches, in binary form or in text form.
pub fn latches_length(binary: bool, latches: &[u32], resets: &[u32], n: usize) -> usize
    requires n_in_bounds { 2 * n ≤ length latches.now }
    requires n_in_bounds_2 { n ≤ length resets.now }
    requires n_bound { n ≤ 16777216 }
    ensures value { result ≡ length (lines_of (latch_rows binary n latches.now resets.now)) }
    ensures upper_bound { result ≤ 33 * n }
{
    let mut sum: usize = 0;
    for i in 0..n {
        let k = 2 * i;
        sum += latch_length(binary, latches[k], latches[k + 1], resets[i]);
    }
    sum
}

// A latch's next state and its reset; the position after them.
fn write_next(out: &mut [u8], at: usize, next: u32, reset: u32) -> usize
    requires { at + length (next_line next reset) ≤ length out.old }
    ensures value { result ≡ at + length (next_line next reset) }
    ensures out_after { out.new ≡ put out.old at (next_line next reset) }
{
    if reset == 0 {
        return write_word(out, at, next, 0);
    }
    let second = write_word(out, at, next, 1);
    write_word(out, second, reset, 0)
}

// A latch's line; the position after it.
fn write_latch(
    out: &mut [u8],
    at: usize,
    binary: bool,
    current: u32,
    next: u32,
    reset: u32,
) -> usize
    requires { at + length (latch_bytes binary current next reset) ≤ length out.old }
    ensures value { result ≡ at + length (latch_bytes binary current next reset) }
    ensures out_after { out.new ≡ put out.old at (latch_bytes binary current next reset) }
{
    if binary {
        return write_next(out, at, next, reset);
    }
    let second = write_word(out, at, current, 1);
    write_next(out, second, next, reset)
}

// The lines of n latches from a position on, in binary form or in text form; the position after them.
pub fn write_latches(
    out: &mut [u8],
    at: usize,
    binary: bool,
    latches: &[u32],
    resets: &[u32],
    n: usize,
) -> usize
    requires n_in_bounds { 2 * n ≤ length latches.now }
    requires n_in_bounds_2 { n ≤ length resets.now }
    requires n_bound { n ≤ 16777216 }
    requires resets_in_bounds { at + length (lines_of (latch_rows binary n latches.now resets.now)) ≤ length out.old }
    ensures value { result ≡ at + length (lines_of (latch_rows binary n latches.now resets.now)) }
    ensures out_after { out.new ≡ put out.old at
        (lines_of (latch_rows binary n latches.now resets.now)) }
{
    let mut next = at;
    for i in 0..n {
        let k = 2 * i;
        next = write_latch(out, next, binary, latches[k], latches[k + 1], resets[i]);
    }
    next
}

// How far a literal lies above another.
fn above(a: u32, b: u32) -> u32
    ensures { result ≡ a - b }
{
    Lit::at(a).minus(Lit::at(b))
}

// The bytes of one gate: of lhs - rhs0 and of rhs0 - rhs1.
fn gate_length(lhs: u32, rhs0: u32, rhs1: u32) -> usize
    ensures value { result ≡ length (sides_bytes lhs rhs0 rhs1) }
    ensures upper_bound { result ≤ 10 }
{
    differences::groups_in(above(lhs, rhs0)) + differences::groups_in(above(rhs0, rhs1))
}

// The bytes of n gates of three words.
pub fn gates_length(gates: &[u32], n: usize) -> usize
    requires n_in_bounds { 3 * n ≤ length gates.now }
    requires n_bound { 3 * n ≤ 16777216 }
    ensures value { result ≡ length (gate_bytes (map gate_of (rows_of 3 n gates.now))) }
    ensures upper_bound { result ≤ 10 * n }
{
    let mut sum: usize = 0;
    for gate in gates[..3 * n].chunks_exact(3) {
        sum += gate_length(gate[0], gate[1], gate[2]);
    }
    sum
}

// One gate: lhs - rhs0, then rhs0 - rhs1; the position after both.
fn write_gate(out: &mut [u8], at: usize, lhs: u32, rhs0: u32, rhs1: u32) -> usize
    requires { at + length (sides_bytes lhs rhs0 rhs1) ≤ length out.old }
    ensures value { result ≡ at + length (sides_bytes lhs rhs0 rhs1) }
    ensures out_after { out.new ≡ put out.old at (sides_bytes lhs rhs0 rhs1) }
{
    let middle = differences::put_groups(out, at, above(lhs, rhs0));
    differences::put_groups(out, middle, above(rhs0, rhs1))
}

// The groups of a number that has three at most. Three bytes are stored always, since how many groups there are
// can't be foreseen and a wrong guess is dear; what follows is put over those past the groups. The position after
// the groups.
fn put_three(out: &mut [u8], at: usize, d: u32) -> usize
    requires d_bound { d < 2097152 }
    requires at_in_bounds { at + 3 ≤ length out.old }
    ensures value { result ≡ at + length (groups_of d) }
    ensures begun { Begun out.old at (groups_of d) out.new result }
{
    let second = (d >= 128) as u32;
    let third = (d >= 16384) as u32;
    out[at] = (d & 0x7f | second << 7) as u8;
    out[at + 1] = (d >> 7 & 0x7f | third << 7) as u8;
    out[at + 2] = (d >> 14) as u8;
    at + 1 + second as usize + third as usize
}

// One difference that two bytes more follow; the position after it.
fn begin_difference(out: &mut [u8], at: usize, d: u32) -> usize
    requires { at + length (groups_of d) + 2 ≤ length out.old }
    ensures value { result ≡ at + length (groups_of d) }
    ensures begun { Begun out.old at (groups_of d) out.new result }
{
    if d < 2097152 {
        return put_three(out, at, d);
    }
    differences::put_groups(out, at, d)
}

// One gate that another follows; the position after it.
fn begin_gate(out: &mut [u8], at: usize, lhs: u32, rhs0: u32, rhs1: u32) -> usize
    requires { at + length (sides_bytes lhs rhs0 rhs1) + 2 ≤ length out.old }
    ensures value { result ≡ at + length (sides_bytes lhs rhs0 rhs1) }
    ensures begun { Begun out.old at (sides_bytes lhs rhs0 rhs1) out.new result }
{
    let middle = begin_difference(out, at, above(lhs, rhs0));
    begin_difference(out, middle, above(rhs0, rhs1))
}

// n gates of three words from a position on; the position after them.
pub fn write_gates(out: &mut [u8], at: usize, gates: &[u32], n: usize) -> usize
    requires n_in_bounds { 3 * n ≤ length gates.now }
    requires n_bound { 3 * n ≤ 16777216 }
    requires gates_in_bounds { at + length (gate_bytes (map gate_of (rows_of 3 n gates.now))) ≤ length out.old }
    ensures value { result ≡ at + length (gate_bytes (map gate_of (rows_of 3 n gates.now))) }
    ensures out_after { out.new ≡ put out.old at
        (gate_bytes (map gate_of (rows_of 3 n gates.now))) }
{
    if n == 0 {
        return at;
    }
    let mut next = at;
    for i in 0..n - 1 {
        let k = 3 * i;
        next = begin_gate(out, next, gates[k], gates[k + 1], gates[k + 2]);
    }
    let last = 3 * (n - 1);
    write_gate(out, next, gates[last], gates[last + 1], gates[last + 2])
}
