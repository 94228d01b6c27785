// The witness question: a list of input vectors is stepped from the state of the resets (the paper, stepping).
ghost use Rattle.std.specs.Prelude.{◌≡◌, ◌||◌, List, ℕ, ◌+◌, ◌*◌, length, take};
ghost use Rattle.plan.specs.Circuit.{circuit_of, seven};
ghost use Rattle.plan.specs.Step.{Value, any1};
ghost use Rattle.plan.specs.Outcome.{witness3};
ghost use Rattle.step.specs.values.Words.{values_at};
ghost use Rattle.step.specs.sweep.Lookup.{seen};
ghost use Rattle.step.specs.sweep.Running.{Runs, Rests, lits_of};
ghost use Rattle.witness.specs.three.Listing.{Shown, Starts, shows_from};
ghost use Rattle.plan.specs.Lent.{Asks};

use judge::check_in_order;
use plan::{Counts, Refusal};
use step::codes::whole_list;
use step::sweep::{all_lits, any_lit, start_values, step_values};
use step::values::{any_one, load};
use tables::clear;

// Whether one of the outputs or of the bad states is 1 after a step.
pub fn shown(n: Counts, bads: &[u32], t: &[u32]) -> bool
    requires { Shown n bads.now t.now }
    ensures { result ≡ (any1 (values_at t.now (n.M + 1) n.O)
        || any1 (seen (lits_of n) t.now (take n.B bads.now))) }
{
    let out = n.M + 1;
    if any_one(t, out, n.O) {
        return true;
    }
    any_lit(bads, n.B, out + n.O, t)
}

// Whether a list, whose bytes are good, shows 1 on some output or bad state from the state that scratch holds,
// every constraint being 1 there and at all steps before. Between two steps the state stays in scratch; the first 1
// ends it, and the first constraint that is not.
fn shows_one(
    n: Counts,
    latches: &[u32],
    outputs: &[u32],
    gates: &[u32],
    bads: &[u32],
    constraints: &[u32],
    scratch: &mut [u32],
    number: usize,
    bytes: &[u8],
) -> bool
    requires starts { Starts n latches.now outputs.now gates.now bads.now constraints.now scratch.old }
    requires bytes_len { length bytes.now ≡ number * n.I }
    ensures { (inputs resets : List ℕ) (s : List Value)
        → Runs n (seven inputs latches.now outputs.now gates.now resets
        bads.now constraints.now) → length s ≡ n.L → Rests n s scratch.old → result
        ≡ shows_from (circuit_of n (seven inputs latches.now outputs.now
        gates.now resets bads.now constraints.now)) s number bytes.now }
{
    let lits = n.M + 1 + n.O;
    for k in 0..number {
        let at = n.I * k;
        load(&bytes[at..at + n.I], 1, scratch);
        step_values(n, latches, outputs, gates, scratch);
        if !all_lits(constraints, n.C, lits, scratch) {
            return false;
        }
        if shown(n, bads, scratch) {
            return true;
        }
    }
    false
}

// The witness question: whether stepping a list of `number` vectors from the resets gives 1 on some output or bad
// state at some step, every constraint being 1 there and at all steps before. The circuit is checked once, and the
// whole list judged before the first step. Scratch is zero afterwards.
pub fn witness3(
    n: Counts,
    inputs: &[u32],
    latches: &[u32],
    outputs: &[u32],
    gates: &[u32],
    resets: &[u32],
    bads: &[u32],
    constraints: &[u32],
    scratch: &mut [u32],
    number: usize,
    bytes: &[u8],
) -> Result<bool, Refusal>
    ensures { Asks witness3 n inputs latches outputs gates resets bads constraints scratch number bytes result }
{
    check_in_order(
        n,
        inputs,
        latches,
        outputs,
        gates,
        resets,
        bads,
        constraints,
        scratch,
    )?;
    if !whole_list(bytes, number, n.I) {
        return Err(Refusal::BadVector(2));
    }
    start_values(n, resets, scratch);
    let shown = shows_one(
        n,
        latches,
        outputs,
        gates,
        bads,
        constraints,
        scratch,
        number,
        bytes,
    );
    clear(scratch);
    Ok(shown)
}
