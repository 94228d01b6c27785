// Refusal 5 over given tables: each literal must be in its range (the paper, refusal numbers; AIGER report, section 6).
ghost use Rattle.std.specs.Prelude.{◌≡◌, true, [], map, ◌+◌, ◌*◌, ◌≤◌, length, take, drop};
ghost use Rattle.plan.specs.Literals.{in_range};
ghost use Rattle.plan.specs.Circuit.{latch_of, rows_of, resets_ok, inside, all_inside};
ghost use Rattle.plan.specs.Binary.{binary_order};
ghost use Rattle.plan.specs.Given.{outside_in};
ghost use Rattle.tables.specs.Held.{circuit_in, Fits};
ghost use Rattle.judge.specs.ranges.Parts.{outside_first, outside_last, FirstRoom, LastRoom};

use plan::{Counts, Lit, is_reset};

// Whether a table's word is in its range.
fn word_within(word: u32, defines: bool, m: u32) -> bool
    ensures { result ≡ in_range defines m word }
{
    Lit::at(word).within(defines, m)
}

// Whether the k words of the row that starts at `start` are in their ranges. The first defines or not, the others
// never do.
fn row_within(table: &[u32], start: usize, k: usize, defines: bool, m: u32) -> bool
    requires { start + k ≤ length table.now }
    ensures { result ≡ inside defines m (take k (drop start table.now)) }
{
    let mut first = defines;
    for word in &table[start..start + k] {
        if !word_within(*word, first, m) {
            return false;
        }
        first = false;
    }
    true
}

// Whether the first n rows of k words are in their ranges, the first word of each as one that defines or not.
#[tactic(auto, using(laws::proofs::Tables::row_ends))]
fn rows_within(table: &[u32], k: usize, n: usize, defines: bool, m: u32) -> bool
    requires { k * n ≤ length table.now }
    ensures { result ≡ all_inside defines m (rows_of k n table.now) }
{
    for i in 0..n {
        if !row_within(table, k * i, k, defines, m) {
            return false;
        }
    }
    true
}

// The same, unless it is known.
fn known_within(known: bool, table: &[u32], k: usize, n: usize, defines: bool, m: u32) -> bool
    requires n_in_bounds { k * n ≤ length table.now }
    requires table_value { known ≡ true → all_inside defines m (rows_of k n table.now) ≡ true }
    ensures { result ≡ all_inside defines m (rows_of k n table.now) }
{
    if known {
        return true;
    }
    rows_within(table, k, n, defines, m)
}

// Whether the first n latches have a reset each.
fn resets_within(latches: &[u32], resets: &[u32], n: usize) -> bool
    requires n_in_bounds { 2 * n ≤ length latches.now }
    requires n_in_bounds_2 { n ≤ length resets.now }
    ensures { result ≡ resets_ok (map latch_of (rows_of 2 n latches.now)) (take n resets.now) }
{
    for i in 0..n {
        if !is_reset(latches[2 * i], resets[i]) {
            return false;
        }
    }
    true
}

// The first of tables 1 to 4 with a literal out of its range. Inputs, latches and gates define, outputs do
// not. Binary order leaves no input and no gate out of range.
fn first_tables(
    n: Counts,
    inputs: &[u32],
    latches: &[u32],
    outputs: &[u32],
    gates: &[u32],
    in_order: bool,
) -> Option<usize>
    requires first_room { FirstRoom n inputs.now latches.now outputs.now gates.now }
    requires gates_value { in_order ≡ true → binary_order
        (circuit_in n inputs.now latches.now outputs.now gates.now [] [] []) ≡ true }
    ensures { result ≡ outside_first (circuit_in n inputs.now latches.now
        outputs.now gates.now [] [] []) }
{
    let m = n.M as u32;
    if !known_within(in_order, inputs, 1, n.I, true, m) {
        return Some(1);
    }
    if !rows_within(latches, 2, n.L, true, m) {
        return Some(2);
    }
    if !rows_within(outputs, 1, n.O, false, m) {
        return Some(3);
    }
    if !known_within(in_order, gates, 3, n.A, true, m) {
        return Some(4);
    }
    None
}

// The first of tables 7 to 9 with a reset that is none or a literal out of its range.
fn last_tables(
    n: Counts,
    latches: &[u32],
    resets: &[u32],
    bads: &[u32],
    constraints: &[u32],
) -> Option<usize>
    requires { LastRoom n latches.now resets.now bads.now constraints.now }
    ensures { result ≡ outside_last (circuit_in n [] latches.now [] [] resets.now
        bads.now constraints.now) }
{
    let m = n.M as u32;
    if !resets_within(latches, resets, n.L) {
        return Some(7);
    }
    if !rows_within(bads, 1, n.B, false, m) {
        return Some(8);
    }
    if !rows_within(constraints, 1, n.C, false, m) {
        return Some(9);
    }
    None
}

// The first of the tables with a literal out of its range, in the order of their numbers.
pub fn out_of_range(
    n: Counts,
    inputs: &[u32],
    latches: &[u32],
    outputs: &[u32],
    gates: &[u32],
    resets: &[u32],
    bads: &[u32],
    constraints: &[u32],
    in_order: bool,
) -> Option<usize>
    requires fits { Fits n inputs.now latches.now outputs.now gates.now resets.now bads.now
        constraints.now }
    requires constraints_value { in_order ≡ true → binary_order
        (circuit_in n inputs.now latches.now outputs.now gates.now resets.now bads.now constraints.now)
        ≡ true }
    ensures { result ≡ outside_in (circuit_in n inputs.now latches.now
        outputs.now gates.now resets.now bads.now
        constraints.now) }
{
    let first = first_tables(n, inputs, latches, outputs, gates, in_order);
    if first.is_some() {
        return first;
    }
    last_tables(n, latches, resets, bads, constraints)
}
