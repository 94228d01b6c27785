// Conversion: the same circuit in binary order. Inputs get the variables from 1 on, in list order, latches the
// next, then gates.
#![tactic(auto)]

ghost use Rattle.plan.specs.Circuit.{Tables, circuit_of};
ghost use Rattle.plan.specs.Convert.{convert};
ghost use Rattle.plan.specs.Outcome.{conversion};
ghost use Rattle.convert.specs.Ready.{Ready, with_first, with_last, First, FirstHeld, Last, LastHeld};
ghost use Rattle.plan.specs.Lent.{Makes};

use crate::renumber::{place_gates, renumber_column};
use judge::number;
use lines::gates::{run_on, spread};
use plan::{Counts, Refusal};
use tables::{clear, clear_all, lengths};

mod renumber;

// Writes tables 1 to 4 of the converted circuit, from the numbers t of all variables.
fn fill(
    n: Counts,
    latches: &[u32],
    outputs: &[u32],
    gates: &[u32],
    to_inputs: &mut [u32],
    to_latches: &mut [u32],
    to_outputs: &mut [u32],
    to_gates: &mut [u32],
    t: &[u32],
)
    requires { First n latches.now outputs.now gates.now t.now to_inputs.old to_latches.old
        to_outputs.old to_gates.old }
    ensures { (x : Tables) → Ready n (with_first x latches.now outputs.now
        gates.now) t.now → FirstHeld
        (convert (circuit_of n (with_first x latches.now outputs.now gates.now)))
        to_inputs.old to_latches.old to_outputs.old to_gates.old
        to_inputs.new to_latches.new to_outputs.new to_gates.new }
{
    let first_latch = 1 + n.I;
    let first_gate = first_latch + n.L;
    run_on(to_inputs, 1, n.I);
    renumber_column(latches, 2, 1, n.L, t, to_latches);
    spread(to_latches, first_latch as u32, n.L);
    renumber_column(outputs, 1, 0, n.O, t, to_outputs);
    place_gates(gates, first_gate, n.A, t, to_gates);
}

// Writes tables 7 to 9: resets, bad states and constraints under their variables' numbers.
fn fill_last(
    n: Counts,
    resets: &[u32],
    bads: &[u32],
    constraints: &[u32],
    to_resets: &mut [u32],
    to_bads: &mut [u32],
    to_constraints: &mut [u32],
    t: &[u32],
)
    requires { Last n resets.now bads.now constraints.now t.now to_resets.old to_bads.old
        to_constraints.old }
    ensures { (x : Tables) → Ready n (with_last x resets.now bads.now
        constraints.now) t.now
        → LastHeld (convert (circuit_of n (with_last x resets.now bads.now
        constraints.now))) to_resets.old to_bads.old
        to_constraints.old to_resets.new to_bads.new
        to_constraints.new }
{
    renumber_column(resets, 1, 0, n.L, t, to_resets);
    renumber_column(bads, 1, 0, n.B, t, to_bads);
    renumber_column(constraints, 1, 0, n.C, t, to_constraints);
}

// The same circuit in binary order, or the first refusal of the given tables, after which the written tables are
// zero throughout. Scratch is zero afterwards.
pub fn convert(
    n: Counts,
    inputs: &[u32],
    latches: &[u32],
    outputs: &[u32],
    gates: &[u32],
    resets: &[u32],
    bads: &[u32],
    constraints: &[u32],
    to_inputs: &mut [u32],
    to_latches: &mut [u32],
    to_outputs: &mut [u32],
    to_gates: &mut [u32],
    to_resets: &mut [u32],
    to_bads: &mut [u32],
    to_constraints: &mut [u32],
    scratch: &mut [u32],
) -> Result<Counts, Refusal>
    ensures { Makes conversion n inputs latches outputs gates resets bads constraints to_inputs to_latches
        to_outputs to_gates to_resets to_bads to_constraints scratch result }
{
    clear_all(
        to_inputs,
        to_latches,
        to_outputs,
        to_gates,
        to_resets,
        to_bads,
        to_constraints,
    );
    let to = lengths(
        to_inputs,
        to_latches,
        to_outputs,
        to_gates,
        to_resets,
        to_bads,
        to_constraints,
    );
    number(
        n,
        inputs,
        latches,
        outputs,
        gates,
        resets,
        bads,
        constraints,
        scratch,
        to,
    )?;
    fill(
        n, latches, outputs, gates, to_inputs, to_latches, to_outputs, to_gates, scratch,
    );
    fill_last(
        n,
        resets,
        bads,
        constraints,
        to_resets,
        to_bads,
        to_constraints,
        scratch,
    );
    clear(scratch);
    let m = n.I + n.L + n.A;
    Ok(Counts {
        M: m,
        I: n.I,
        L: n.L,
        O: n.O,
        A: n.A,
        B: n.B,
        C: n.C,
    })
}
