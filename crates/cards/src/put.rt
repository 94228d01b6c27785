// The records of cards, written into a buffer that has room (the paper, plan cards).
ghost use Rattle.std.specs.Prelude.{◌≡◌, ◌++◌, ◌+◌, ◌*◌, ◌≤◌, length};
ghost use Rattle.plan.specs.Outcome.{put};
ghost use Rattle.plan.specs.Cards.{mark_bytes, word_bytes, head_card, card_bytes};
ghost use Rattle.cards.specs.put.Parts.{latch_cards, output_cards, gates_cards, table_cards, Cardable};

use crate::{put_mark, put_word};
use plan::Counts;

// A record of one number; the position after it.
fn put_card(out: &mut [u8], at: usize, letter: u8, word: u32) -> usize
    requires { at + 6 ≤ length out.old }
    ensures value { result ≡ at + 6 }
    ensures out_after { out.new ≡ put out.old at (mark_bytes letter ++ word_bytes word) }
{
    let number = put_mark(out, at, letter);
    put_word(out, number, word)
}

// The head's record from the start of a buffer; the position after it.
fn put_head(out: &mut [u8], m: u32, i: u32, l: u32, o: u32, a: u32) -> usize
    requires { 22 ≤ length out.old }
    ensures value { result ≡ 22 }
    ensures out_after { out.new ≡ put out.old 0
        (head_card (record { M = m; I = i; L = l; O = o; A = a; B = 0; C = 0 })) }
{
    let first = put_card(out, 0, b'H', m);
    let second = put_word(out, first, i);
    let third = put_word(out, second, l);
    let fourth = put_word(out, third, o);
    put_word(out, fourth, a)
}

// A record for each of n latches, from a position on: its next state. The position after them.
fn put_latches(out: &mut [u8], at: usize, latches: &[u32], n: usize) -> usize
    requires n_in_bounds { at + 6 * n ≤ length out.old }
    requires n_in_bounds_2 { 2 * n ≤ length latches.now }
    ensures value { result ≡ at + 6 * n }
    ensures out_after { out.new ≡ put out.old at (latch_cards n latches.now) }
{
    let mut next = at;
    for i in 0..n {
        next = put_card(out, next, b'L', latches[2 * i + 1]);
    }
    next
}

// A record for each of n outputs, from a position on. The position after them.
fn put_outputs(out: &mut [u8], at: usize, outputs: &[u32], n: usize) -> usize
    requires n_in_bounds { at + 6 * n ≤ length out.old }
    requires n_in_bounds_2 { n ≤ length outputs.now }
    ensures value { result ≡ at + 6 * n }
    ensures out_after { out.new ≡ put out.old at (output_cards n outputs.now) }
{
    let mut next = at;
    for output in &outputs[..n] {
        next = put_card(out, next, b'O', *output);
    }
    next
}

// A record for each of n gates, from a position on: its right sides. The position after them.
fn put_gates(out: &mut [u8], at: usize, gates: &[u32], n: usize) -> usize
    requires n_in_bounds { at + 10 * n ≤ length out.old }
    requires n_in_bounds_2 { 3 * n ≤ length gates.now }
    ensures value { result ≡ at + 10 * n }
    ensures out_after { out.new ≡ put out.old at (gates_cards n gates.now) }
{
    let mut next = at;
    for i in 0..n {
        let k = 3 * i;
        next = put_card(out, next, b'A', gates[k + 1]);
        next = put_word(out, next, gates[k + 2]);
    }
    next
}

// The cards of given tables, from the start of a buffer; how many bytes.
pub fn fill_cards(
    out: &mut [u8],
    n: Counts,
    latches: &[u32],
    outputs: &[u32],
    gates: &[u32],
) -> usize
    requires cardable { Cardable n latches.now outputs.now gates.now }
    requires n_in_bounds { card_bytes n ≤ length out.old }
    ensures value { result ≡ card_bytes n }
    ensures out_after { out.new ≡ put out.old 0
        (table_cards n latches.now outputs.now gates.now) }
{
    let first_latch = put_head(
        out, n.M as u32, n.I as u32, n.L as u32, n.O as u32, n.A as u32,
    );
    let first_output = put_latches(out, first_latch, latches, n.L);
    let first_gate = put_outputs(out, first_output, outputs, n.O);
    put_gates(out, first_gate, gates, n.A)
}
