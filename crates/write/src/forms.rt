// The two forms of a file in the shortest form, written into a buffer that has room, and how long they are (the
// paper, text form and binary form; AIGER report, sections 7, 11 and 12; AIGER 1.9).
ghost use Rattle.std.specs.Prelude.{◌≡◌, ◌++◌, ◌+◌, ◌*◌, ◌<◌, ◌≤◌, length, take};
ghost use Rattle.plan.specs.Header.{list_of, short_counts};
ghost use Rattle.plan.specs.Outcome.{put};
ghost use Rattle.laws.proofs.Reading.Headers.{AllMost};
ghost use Rattle.tables.specs.Held.{Fits};
ghost use Rattle.write.specs.forms.Forms.{head_bytes, observed_bytes, text_bytes, binary_bytes, Observable};
ghost use Rattle.write.specs.forms.Forms.{Printable};

use crate::print::{
    gates_length, latches_length, lines_length, write_gates, write_latches, write_lines,
};
use plan::Counts;

// All counts, in the order of the header.
fn seven(n: Counts) -> [u32; 7]
    requires { AllMost (list_of n) }
    ensures { result ≡ list_of n }
{
    [
        n.M as u32, n.I as u32, n.L as u32, n.O as u32, n.A as u32, n.B as u32, n.C as u32,
    ]
}

// How many of them the header's line has: trailing zeros after A are left off.
fn counts_told(n: Counts) -> usize
    ensures result_nonzero { (0 < result) × (result ≤ 7) }
    ensures n_value { take result (list_of n) ≡ short_counts n }
{
    if n.C > 0 {
        return 7;
    }
    if n.B > 0 {
        return 6;
    }
    5
}

// The bytes of a header, which are as many in both forms.
fn header_length(n: Counts) -> usize
    requires { AllMost (list_of n) }
    ensures value { result ≡ length (head_bytes 97 n) }
    ensures upper_bound { result ≤ 81 }
{
    let words = seven(n);
    let k = counts_told(n);
    4 + lines_length(&words, k, 1)
}

// The header with the letter of a form, from the start of a buffer; the position after it.
fn write_header(out: &mut [u8], letter: u8, n: Counts) -> usize
    requires all_most { AllMost (list_of n) }
    requires n_in_bounds { length (head_bytes letter n) ≤ length out.old }
    ensures value { result ≡ length (head_bytes letter n) }
    ensures out_after { out.new ≡ put out.old 0 (head_bytes letter n) }
{
    out[0] = b'a';
    out[1] = letter;
    out[2] = b'g';
    out[3] = b' ';
    let words = seven(n);
    let k = counts_told(n);
    write_lines(out, 4, &words, k, 1)
}

// The bytes of the lines of outputs, bad states and constraints.
fn observed_length(n: Counts, outputs: &[u32], bads: &[u32], constraints: &[u32]) -> usize
    requires { Observable n outputs.now bads.now constraints.now }
    ensures value { result ≡ length (observed_bytes n outputs.now bads.now
        constraints.now) }
    ensures upper_bound { result ≤ 34603008 }
{
    lines_length(outputs, 1, n.O) + lines_length(bads, 1, n.B) + lines_length(constraints, 1, n.C)
}

// The lines of outputs, bad states and constraints from a position on; the position after them.
fn write_observed(
    out: &mut [u8],
    at: usize,
    n: Counts,
    outputs: &[u32],
    bads: &[u32],
    constraints: &[u32],
) -> usize
    requires observable { Observable n outputs.now bads.now constraints.now }
    requires constraints_in_bounds { at + length (observed_bytes n outputs.now bads.now constraints.now) ≤ length out.old }
    ensures value { result ≡ at + length (observed_bytes n outputs.now bads.now
        constraints.now) }
    ensures out_after { out.new ≡ put out.old at
        (observed_bytes n outputs.now bads.now constraints.now) }
{
    let first_bad = write_lines(out, at, outputs, 1, n.O);
    let first_constraint = write_lines(out, first_bad, bads, 1, n.B);
    write_lines(out, first_constraint, constraints, 1, n.C)
}

// The bytes of the text form.
pub fn text_length(
    n: Counts,
    inputs: &[u32],
    latches: &[u32],
    outputs: &[u32],
    gates: &[u32],
    resets: &[u32],
    bads: &[u32],
    constraints: &[u32],
) -> usize
    requires { Fits n inputs.now latches.now outputs.now gates.now resets.now bads.now
        constraints.now }
    ensures { result ≡ length (text_bytes n inputs.now latches.now outputs.now
        gates.now resets.now bads.now constraints.now) }
{
    header_length(n)
        + lines_length(inputs, 1, n.I)
        + latches_length(false, latches, resets, n.L)
        + observed_length(n, outputs, bads, constraints)
        + lines_length(gates, 3, n.A)
}

// The text form from the start of a buffer that has room: I lines of one literal, L of two and possibly a reset, O,
// B and C of one, A of three. The position after it.
pub fn fill_text(
    out: &mut [u8],
    n: Counts,
    inputs: &[u32],
    latches: &[u32],
    outputs: &[u32],
    gates: &[u32],
    resets: &[u32],
    bads: &[u32],
    constraints: &[u32],
) -> usize
    requires fits { Fits n inputs.now latches.now outputs.now gates.now resets.now bads.now
        constraints.now }
    requires constraints_in_bounds { length (text_bytes n inputs.now latches.now outputs.now gates.now resets.now bads.now
        constraints.now) ≤ length out.old }
    ensures value { result ≡ length (text_bytes n inputs.now latches.now outputs.now
        gates.now resets.now bads.now constraints.now) }
    ensures out_after { out.new ≡ put out.old 0
        (text_bytes n inputs.now latches.now outputs.now gates.now
        resets.now bads.now constraints.now) }
{
    let first_input = write_header(out, b'a', n);
    let first_latch = write_lines(out, first_input, inputs, 1, n.I);
    let first_output = write_latches(out, first_latch, false, latches, resets, n.L);
    let first_gate = write_observed(out, first_output, n, outputs, bads, constraints);
    write_lines(out, first_gate, gates, 3, n.A)
}

// The bytes of the binary form of a circuit in binary order.
pub fn binary_length(
    n: Counts,
    latches: &[u32],
    outputs: &[u32],
    gates: &[u32],
    resets: &[u32],
    bads: &[u32],
    constraints: &[u32],
) -> usize
    requires { Printable n latches.now outputs.now gates.now resets.now bads.now constraints.now }
    ensures { result ≡ length (binary_bytes n latches.now outputs.now gates.now
        resets.now bads.now constraints.now) }
{
    header_length(n)
        + latches_length(true, latches, resets, n.L)
        + observed_length(n, outputs, bads, constraints)
        + gates_length(gates, n.A)
}

// The binary form from the start of a buffer that has room: L lines of a next state and possibly a reset, O, B and
// C of one literal, A gates. The position after it.
pub fn fill_binary(
    out: &mut [u8],
    n: Counts,
    latches: &[u32],
    outputs: &[u32],
    gates: &[u32],
    resets: &[u32],
    bads: &[u32],
    constraints: &[u32],
) -> usize
    requires printable { Printable n latches.now outputs.now gates.now resets.now bads.now constraints.now }
    requires constraints_in_bounds { length (binary_bytes n latches.now outputs.now gates.now resets.now bads.now
        constraints.now) ≤ length out.old }
    ensures value { result ≡ length (binary_bytes n latches.now outputs.now gates.now
        resets.now bads.now constraints.now) }
    ensures out_after { out.new ≡ put out.old 0
        (binary_bytes n latches.now outputs.now gates.now
        resets.now bads.now constraints.now) }
{
    let first_next = write_header(out, b'i', n);
    let first_output = write_latches(out, first_next, true, latches, resets, n.L);
    let first_gate = write_observed(out, first_output, n, outputs, bads, constraints);
    write_gates(out, first_gate, gates, n.A)
}

// The tail from a position on; the position after it.
pub fn append(out: &mut [u8], at: usize, tail: &[u8]) -> usize
    requires { at + length tail.now ≤ length out.old }
    ensures value { result ≡ at + length tail.now }
    ensures out_after { out.new ≡ put out.old at tail.now }
{
    // `copy_from_slice` would be a call of memmove, and of other code the archive takes memset alone.
    for (i, byte) in tail.iter().enumerate() {
        out[at + i] = *byte;
    }
    at + tail.len()
}
