// Refusal 7, then 8, over the whole circuit in the tables: what is left to check when every literal is in range and
// no variable is defined twice.
ghost use Rattle.std.specs.Prelude.{◌≡◌, true, false, List, map, ℕ, ◌+◌, ◌*◌, ◌<◌, ◌≤◌, length, Ok};
ghost use Rattle.plan.specs.Circuit.{gate_of, rows_of};
ghost use Rattle.plan.specs.Outcome.{checked_by};
ghost use Rattle.laws.proofs.Running.Ascending.{ascends};
ghost use Rattle.laws.proofs.Tables.{head_at};
ghost use Rattle.judge.specs.at_end.Leaves.{with_heads, Leaves, Numbered, AllNumbered};
ghost use Rattle.tables.specs.Held.{circuit_in};
ghost use Rattle.judge.specs.at_end.Read.{closing, Read};

use crate::{order, used};
use plan::{Counts, Lit, Refusal};

// The variables of n rows, of `stride` words of which the first defines, take the numbers from `first` on.
#[tactic(auto, using(laws::proofs::Tables::row_ends))]
fn number_heads(table: &[u32], stride: usize, n: usize, first: u32, t: &mut [u32])
    requires stride_nonzero { 0 < stride }
    requires n_in_bounds { stride * n ≤ length table.now }
    requires n_bound { first + n < 4294967296 }
    requires by_index { (i : ℕ) → i < n → head_at table.now stride i < length t.old }
    ensures { t.new ≡ with_heads table.now stride first n t.old }
{
    for i in 0..n {
        let v = Lit::at(table[stride * i]).var().index() as usize;
        t[v] = first + i as u32;
    }
}

// Inputs get the numbers from 1 on, in list order, and latches the next; the constant has 0, and so has what is no leaf
// (the paper, conversion).
fn number_leaves(n: Counts, inputs: &[u32], latches: &[u32], t: &mut [u32])
    requires { Leaves n inputs.now latches.now t.old }
    ensures { Numbered n inputs.now latches.now t.old t.new }
{
    number_heads(inputs, 1, n.I, 1, t);
    number_heads(latches, 2, n.L, (1 + n.I) as u32, t);
}

// Whether the gates need no order: nobody asks for their numbers, and each uses variables below its own alone.
fn needs_no_order(numbers: bool, gates: &[u32], a: usize) -> bool
    requires { 3 * a ≤ length gates.now }
    ensures { result ≡ true → (numbers ≡ false) × (ascends (map gate_of (rows_of 3 a gates.now)) ≡ true) }
{
    if numbers {
        return false;
    }
    order::ascending(gates, a)
}

// 7, then 8, in which resets have no part. Where numbers are asked, those of all variables stand in the scratch if
// nothing is refused.
pub fn check(
    n: Counts,
    inputs: &[u32],
    latches: &[u32],
    outputs: &[u32],
    gates: &[u32],
    bads: &[u32],
    constraints: &[u32],
    scratch: &mut [u32],
    base: usize,
    numbers: bool,
) -> Result<(), Refusal>
    requires { Read n inputs.now latches.now outputs.now gates.now bads.now constraints.now
        scratch.old base }
    ensures by_index { (resets : List ℕ) → result ≡ checked_by
        (closing (circuit_in n inputs.now latches.now outputs.now
        gates.now resets bads.now constraints.now)) }
    ensures all_numbered { numbers ≡ true → result ≡ Ok tt
        → AllNumbered n inputs.now latches.now gates.now scratch.new }
{
    let marks = &scratch[base..];
    match used::undefined(n, latches, outputs, gates, bads, constraints, marks) {
        Some(v) => Err(Refusal::NotDefined(v)),
        None => {
            if needs_no_order(numbers, gates, n.A) {
                return Ok(());
            }
            tables::clear(scratch);
            number_leaves(n, inputs, latches, scratch);
            order::cycle(gates, scratch, (1 + n.I + n.L) as u32, n.M + 1, n.A)
        }
    }
}
