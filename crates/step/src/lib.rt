// A step in three values, from vectors of bytes into vectors of bytes (the paper, stepping).
#![tactic(auto)]

ghost use Rattle.plan.specs.Circuit.{Tables, circuit_of};
ghost use Rattle.plan.specs.Outcome.{step};
ghost use Rattle.step.specs.sweep.Running.{these, Runs};
ghost use Rattle.step.specs.Asked.{Room, Vectors, Leaves};
ghost use Rattle.plan.specs.Lent.{Steps};

use crate::codes::bad_vector;
use crate::sweep::step_values;
use crate::values::{MAY0, load, store};
use judge::judge_in_order;
use plan::{Counts, Refusal};
use tables::clear;

pub mod codes;
pub mod sweep;
pub mod values;

// A step whose tables and vectors are good. Of scratch it asks the length alone: every word is written before it is
// read.
fn step_vectors(
    n: Counts,
    latches: &[u32],
    outputs: &[u32],
    gates: &[u32],
    scratch: &mut [u32],
    state: &mut [u8],
    ins: &[u8],
    outs: &mut [u8],
)
    requires room { Room n latches.now outputs.now gates.now scratch.old }
    requires vectors { Vectors n state.old ins.now outs.old }
    ensures { (x : Tables) → Runs n (these x latches.now outputs.now gates.now)
        → Leaves (circuit_of n (these x latches.now outputs.now gates.now))
        state.old ins.now state.new outs.new }
{
    // the constant
    scratch[0] = MAY0;
    load(state, 1 + n.I, scratch);
    load(ins, 1, scratch);
    step_values(n, latches, outputs, gates, scratch);
    store(scratch, 1 + n.I, state);
    store(scratch, n.M + 1, outs);
}

// One step: the outputs go into their buffer, and the next state over the state. On a refusal no vector changes;
// scratch is zero afterwards.
pub fn step(
    n: Counts,
    inputs: &[u32],
    latches: &[u32],
    outputs: &[u32],
    gates: &[u32],
    resets: &[u32],
    bads: &[u32],
    constraints: &[u32],
    scratch: &mut [u32],
    state: &mut [u8],
    ins: &[u8],
    outs: &mut [u8],
) -> Result<(), Refusal>
    ensures { Steps step n inputs latches outputs gates resets bads constraints scratch state ins outs result }
{
    judge_in_order(
        n,
        inputs,
        latches,
        outputs,
        gates,
        resets,
        bads,
        constraints,
        scratch,
    )?;
    if let Some(bad) = bad_vector(n, state, ins, outs.len()) {
        clear(scratch);
        return Err(Refusal::BadVector(bad));
    }
    step_vectors(n, latches, outputs, gates, scratch, state, ins, outs);
    clear(scratch);
    Ok(())
}
