// The checks of given tables: 2, 3, 4, 5, 6, 7, 8 over the whole circuit, in this order, and 15 for the callers
// that ask it.
#![tactic(auto)]

ghost use Rattle.std.specs.Prelude.{◌≡◌, true, false, not, ◌&&◌, List, ℕ, Ok, Err};
ghost use Rattle.plan.specs.declared.Refusal.{Refusal};
ghost use Rattle.plan.specs.Refusals.{first_of};
ghost use Rattle.plan.specs.Circuit.{Tables, seven, cleared};
ghost use Rattle.plan.specs.Binary.{binary_order};
ghost use Rattle.plan.specs.Header.{list_of, over, text, adds};
ghost use Rattle.plan.specs.Given.{counted, lent_with};
ghost use Rattle.plan.specs.Outcome.{check, check_in_order, check_by, checked_by, CheckExit};
ghost use Rattle.tables.specs.Lengths.{lengths_in, sizes_of};
ghost use Rattle.tables.specs.Held.{circuit_in, Fits, Scratch};
ghost use Rattle.judge.specs.binary_order.Tables.{Long};
ghost use Rattle.judge.specs.at_end.Leaves.{AllNumbered};
ghost use Rattle.judge.specs.Judged.{given_at, lent_stages, all_stages, circuit_stages, lent_shorter, unordered};
ghost use Rattle.plan.specs.Lent.{Checks};

use crate::binary_order::in_binary_order;
use crate::ranges::out_of_range;
use crate::twice::defined_twice;
use plan::{Counts, Refusal};
use tables::{Sizes, clear, lengths, scratch_to_work, shorter, too_short};

pub mod at_end;
pub mod binary_order;
mod marks;
pub mod order;
pub mod ranges;
pub mod table_six;
mod twice;
pub mod used;

// The limit of every count.
const MOST: usize = 1048575;

// Refusal 2: which of M, I, L, O, A, B, C, numbered from 1, is the first over the limit.
pub fn large_count(n: Counts) -> Option<usize>
    ensures { result ≡ over (counted 1 (list_of n)) }
{
    if MOST < n.M {
        return Some(1);
    }
    if MOST < n.I {
        return Some(2);
    }
    if MOST < n.L {
        return Some(3);
    }
    if MOST < n.O {
        return Some(4);
    }
    if MOST < n.A {
        return Some(5);
    }
    if MOST < n.B {
        return Some(6);
    }
    if MOST < n.C {
        return Some(7);
    }
    None
}

// Refusal 3: whether I + L + A is at most M, as a true sum.
pub fn adds_up(n: Counts) -> bool
    ensures { result ≡ adds text n }
{
    if n.M < n.I {
        return false;
    }
    let left = n.M - n.I;
    if left < n.L {
        return false;
    }
    n.A <= left - n.L
}

// What is left to answer for tables that are not in binary order, where the other checks answered.
fn unordered(answer: Result<(), Refusal>, ordered: bool) -> Result<(), Refusal>
    ensures { result ≡ unordered answer ordered }
{
    answer?;
    if ordered {
        return Err(Refusal::NotInOrder(0));
    }
    Ok(())
}

// Whether the tables are found to be in binary order. Where numbers are asked nobody looks: in any order the gates
// get theirs.
fn found_in_order(numbers: bool, n: Counts, inputs: &[u32], latches: &[u32], gates: &[u32]) -> bool
    requires { Long n inputs.now latches.now gates.now }
    ensures { (outputs resets bads constraints : List ℕ) → result
        ≡ (not numbers && binary_order (circuit_in n inputs.now latches.now outputs
        gates.now resets bads constraints)) }
{
    if numbers {
        return false;
    }
    in_binary_order(n, inputs, latches, gates)
}

// 2, 3, then 4: the least of lent tables of these sizes, with scratch, that is too short.
fn lent_enough(n: Counts, to: Sizes, scratch: usize) -> Result<(), Refusal>
    ensures { result ≡ checked_by (first_of (lent_stages n (lengths_in to scratch))) }
{
    if let Some(large) = large_count(n) {
        return Err(Refusal::LargeCount(large));
    }
    if !adds_up(n) {
        return Err(Refusal::WrongSum(0));
    }
    let needed = scratch_to_work(n);
    if let Some(short) = too_short(n, to, needed, scratch) {
        return Err(Refusal::ShortTable(short));
    }
    Ok(())
}

// 5, then 6, then 7, then 8, then 15. Tables in binary order whose literals are in range can't meet 6, 7 or 8
// (AIGER report, section 7), so that they need no marks: one pass over the gates is all. Marks of variables stand
// in the scratch; the numbers of all variables do at the end, where they are asked and nothing is refused.
fn judge_circuit(
    n: Counts,
    inputs: &[u32],
    latches: &[u32],
    outputs: &[u32],
    gates: &[u32],
    resets: &[u32],
    bads: &[u32],
    constraints: &[u32],
    scratch: &mut [u32],
    ordered: bool,
    numbers: bool,
) -> Result<(), Refusal>
    requires fits { Fits n inputs.now latches.now outputs.now gates.now resets.now bads.now
        constraints.now }
    requires scratch { Scratch n scratch.old }
    requires ordered_value { numbers ≡ true → ordered ≡ false }
    ensures value { result ≡ checked_by (first_of (circuit_stages ordered n
        (seven inputs.now latches.now outputs.now gates.now
        resets.now bads.now constraints.now))) }
    ensures all_numbered { numbers ≡ true → result ≡ Ok tt
        → AllNumbered n inputs.now latches.now gates.now scratch.new }
{
    let in_order = found_in_order(numbers, n, inputs, latches, gates);
    if let Some(out) = out_of_range(
        n,
        inputs,
        latches,
        outputs,
        gates,
        resets,
        bads,
        constraints,
        in_order,
    ) {
        return Err(Refusal::OutOfRange(out));
    }
    if in_order {
        return Ok(());
    }
    clear(scratch);
    if let Some(twice) = defined_twice(n, inputs, latches, gates, scratch) {
        return Err(Refusal::DefinedTwice(twice));
    }
    unordered(
        at_end::check(
            n,
            inputs,
            latches,
            outputs,
            gates,
            bads,
            constraints,
            scratch,
            0,
            numbers,
        ),
        ordered,
    )
}

// 2, 3, 4, then the circuit. The written tables, which bear the same numbers, count for 4.
fn judge(
    n: Counts,
    inputs: &[u32],
    latches: &[u32],
    outputs: &[u32],
    gates: &[u32],
    resets: &[u32],
    bads: &[u32],
    constraints: &[u32],
    scratch: &mut [u32],
    to: Sizes,
    ordered: bool,
    numbers: bool,
) -> Result<(), Refusal>
    requires { numbers ≡ true → ordered ≡ false }
    ensures result_value { let g = given_at n (seven inputs.now latches.now outputs.now
        gates.now resets.now bads.now constraints.now)
        scratch.old in result ≡ checked_by (first_of (all_stages ordered g (lent_shorter g to))) }
    ensures all_numbered { numbers ≡ true → result ≡ Ok tt
        → AllNumbered n inputs.now latches.now gates.now scratch.new }
{
    let own = lengths(inputs, latches, outputs, gates, resets, bads, constraints);
    lent_enough(n, shorter(own, to), scratch.len())?;
    judge_circuit(
        n,
        inputs,
        latches,
        outputs,
        gates,
        resets,
        bads,
        constraints,
        scratch,
        ordered,
        numbers,
    )
}

// The first refusal of given tables where tables of the sizes `to` are lent for writing, with 15 or without.
// Scratch is zero afterwards.
pub fn check_to_make(
    n: Counts,
    inputs: &[u32],
    latches: &[u32],
    outputs: &[u32],
    gates: &[u32],
    resets: &[u32],
    bads: &[u32],
    constraints: &[u32],
    scratch: &mut [u32],
    to: Sizes,
    ordered: bool,
) -> Result<(), Refusal>
    ensures { let g = given_at n (seven inputs.now latches.now outputs.now
        gates.now
        resets.now bads.now constraints.now) scratch.old in
        ((t : Tables) → to ≡ sizes_of t → ◌≡◌ {A = CheckExit} (record { answer = result; scratch = scratch.new })
        (check_by (all_stages ordered g (lent_with g t)) g)) }
{
    let answer = judge(
        n,
        inputs,
        latches,
        outputs,
        gates,
        resets,
        bads,
        constraints,
        scratch,
        to,
        ordered,
        false,
    );
    clear(scratch);
    answer
}

// The same without 15; where nothing is refused the numbers that conversion gives to all variables stand in the
// scratch.
pub fn number(
    n: Counts,
    inputs: &[u32],
    latches: &[u32],
    outputs: &[u32],
    gates: &[u32],
    resets: &[u32],
    bads: &[u32],
    constraints: &[u32],
    scratch: &mut [u32],
    to: Sizes,
) -> Result<(), Refusal>
    ensures fact { let g = given_at n (seven inputs.now latches.now outputs.now
        gates.now resets.now bads.now constraints.now)
        scratch.old in ((t : Tables) → to ≡ sizes_of t → result
        ≡ checked_by (first_of (all_stages false g (lent_with g t)))) }
    ensures all_numbered { result ≡ Ok tt
        → AllNumbered n inputs.now latches.now gates.now scratch.new }
    ensures scratch_after { (q : Refusal) → result ≡ Err q → scratch.new ≡ cleared scratch.old }
{
    let answer = judge(
        n,
        inputs,
        latches,
        outputs,
        gates,
        resets,
        bads,
        constraints,
        scratch,
        to,
        false,
        true,
    );
    if let Err(r) = answer {
        clear(scratch);
        return Err(r);
    }
    answer
}

// Whether given tables hold a circuit that a reader could have accepted, or the first refusal. Scratch is zero
// afterwards.
pub fn check(
    n: Counts,
    inputs: &[u32],
    latches: &[u32],
    outputs: &[u32],
    gates: &[u32],
    resets: &[u32],
    bads: &[u32],
    constraints: &[u32],
    scratch: &mut [u32],
) -> Result<(), Refusal>
    ensures { Checks check n inputs latches outputs gates resets bads constraints scratch result }
{
    let own = lengths(inputs, latches, outputs, gates, resets, bads, constraints);
    check_to_make(
        n,
        inputs,
        latches,
        outputs,
        gates,
        resets,
        bads,
        constraints,
        scratch,
        own,
        false,
    )
}

// The same, then 15.
pub fn check_in_order(
    n: Counts,
    inputs: &[u32],
    latches: &[u32],
    outputs: &[u32],
    gates: &[u32],
    resets: &[u32],
    bads: &[u32],
    constraints: &[u32],
    scratch: &mut [u32],
) -> Result<(), Refusal>
    ensures { Checks check_in_order n inputs latches outputs gates resets bads constraints scratch result }
{
    let own = lengths(inputs, latches, outputs, gates, resets, bads, constraints);
    check_to_make(
        n,
        inputs,
        latches,
        outputs,
        gates,
        resets,
        bads,
        constraints,
        scratch,
        own,
        true,
    )
}

// The same answer. After a refusal scratch is zero; where nothing is refused it is left as it comes, for the caller
// to clear.
pub fn judge_in_order(
    n: Counts,
    inputs: &[u32],
    latches: &[u32],
    outputs: &[u32],
    gates: &[u32],
    resets: &[u32],
    bads: &[u32],
    constraints: &[u32],
    scratch: &mut [u32],
) -> Result<(), Refusal>
    ensures value { result ≡ (check_in_order (given_at n (seven inputs.now latches.now
        outputs.now gates.now resets.now bads.now
        constraints.now) scratch.old)).answer }
    ensures scratch_after { (q : Refusal) → result ≡ Err q → scratch.new ≡ cleared scratch.old }
{
    let to = lengths(inputs, latches, outputs, gates, resets, bads, constraints);
    let answer = judge(
        n,
        inputs,
        latches,
        outputs,
        gates,
        resets,
        bads,
        constraints,
        scratch,
        to,
        true,
        false,
    );
    if let Err(_) = answer {
        clear(scratch);
        return answer;
    }
    answer
}
