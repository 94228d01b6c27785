// What made an output 0 or 1: values by one pass up, marks by one pass down, from the output's gate (the paper, why a needle lifts).
#![tactic(auto)]

ghost use Rattle.std.specs.Prelude.{◌≡◌, List, [], ◌∷◌, map, ℕ, ◌+◌, ◌*◌, ◌<◌, ◌≤◌, length, get_or};
ghost use Rattle.plan.specs.Literals.{var_of, word_of};
ghost use Rattle.plan.specs.Circuit.{Tables, circuit_of};
ghost use Rattle.plan.specs.Step.{Value, code_of, value_of, lit};
ghost use Rattle.plan.specs.Outcome.{put};
ghost use Rattle.plan.specs.Walk.{walk};
ghost use Rattle.laws.proofs.Tables.{gate_at, gates_at};
ghost use Rattle.plan.specs.Explain.{blames, marks_for, explain};
ghost use Rattle.judge.specs.Judged.{given_at};
ghost use Rattle.drop.specs.Marks.{Below};
ghost use Rattle.step.specs.values.Words.{may1, values_at};
ghost use Rattle.step.specs.sweep.Running.{these, Runs};
ghost use Rattle.step.specs.Asked.{Room};
ghost use Rattle.explain.specs.Known.{Space, side_at, Known};
ghost use Rattle.explain.specs.Asked.{Settled, Vectors, Asked, Explains};
ghost use Rattle.plan.specs.Lent.{Blames};

use judge::judge_in_order;
use plan::{Counts, Lit, Refusal};
use step::codes::bad_vector;
use step::sweep::step_values;
use step::values::{MAY0, MAY1, load, store};
use tables::clear;

// Marks a literal's variable, where the marks stand from m on. A mark is the value 1, so that marks are stored as values are.
fn mark(l: Lit, m: usize, t: &mut [u32])
    requires { m + var_of (word_of l) < length t.old }
    ensures { (w : ℕ → Value) (lits n : ℕ) (seen : List ℕ) → lits + 2 * n ≤ m → var_of (word_of l) < n
        → Known w lits m n seen t.old → Known w lits m n (var_of (word_of l) ∷ seen) t.new }
{
    let v = l.var().index() as usize;
    t[m + v] = MAY1;
}

// No variable is marked.
fn unmark(m: usize, n: usize, t: &mut [u32])
    requires { m + n ≤ length t.old }
    ensures { (w : ℕ → Value) (lits : ℕ) → lits + 2 * n ≤ m
        → ((l : ℕ) → l < 2 * n → get_or t.old (lits + l) 0 ≡ may1 (lit w l)) → Known w lits m n [] t.new }
{
    t[m..m + n].fill(MAY0);
}

// The first right side that is 0, of a gate at 0.
fn zero_side(rhs0: Lit, rhs1: Lit, lits: usize, t: &[u32]) -> Lit
    requires { lits + word_of rhs0 < length t.now }
    ensures { result ≡ side_at lits t.now rhs0 rhs1 }
{
    let at = lits + rhs0.word() as usize;
    if t[at] == 0 {
        return rhs0;
    }
    rhs1
}

// A gate that is come to: at 1 it blames both sides, at 0 the first right side that is 0.
fn blame_from(gates: &[u32], k: usize, lits: usize, m: usize, n: usize, t: &mut [u32])
    requires k_in_bounds { 3 * k + 2 < length gates.now }
    requires below { Below n (gate_at gates.now k) }
    requires space { Space lits m n t.old }
    ensures { (w : ℕ → Value) (seen : List ℕ) → Known w lits m n seen t.old
        → Known w lits m n (walk (blames w) (gate_at gates.now k ∷ []) seen) t.new }
{
    let v = Lit::at(gates[3 * k]).var();
    let rhs0 = Lit::at(gates[3 * k + 1]);
    let rhs1 = Lit::at(gates[3 * k + 2]);
    if t[m + v.index() as usize] == MAY0 {
        return;
    }
    let own = v.lit();
    // it can't be 0
    if t[lits + own.negated().word() as usize] == 0 {
        mark(rhs1, m, t);
        mark(rhs0, m, t);
        return;
    }
    // it may be both, which no gate is that is come to from an output at 0 or 1
    if t[lits + own.word() as usize] != 0 {
        return;
    }
    let side = zero_side(rhs0, rhs1, lits, t);
    mark(side, m, t);
}

// From the last gate to the first: in binary order a gate is marked, if at all, before it is come to.
fn blame(gates: &[u32], a: usize, lits: usize, m: usize, n: usize, t: &mut [u32])
    requires a_in_bounds { 3 * a ≤ length gates.now }
    requires by_index { (k : ℕ) → k < a → Below n (gate_at gates.now k) }
    requires space { Space lits m n t.old }
    ensures { (w : ℕ → Value) (seen : List ℕ) → Known w lits m n seen t.old
        → Known w lits m n (walk (blames w) (gates_at gates.now a) seen) t.new }
{
    for k in (0..a).rev() {
        blame_from(gates, k, lits, m, n, t);
    }
}

// The codes of `count` words from `first` on go into a part of a buffer.
fn show(t: &[u32], first: usize, count: usize, out: &mut [u8], at: usize)
    requires count_in_bounds { first + count ≤ length t.now }
    requires count_in_bounds_2 { at + count ≤ length out.old }
    ensures { out.new ≡ put out.old at (map code_of (values_at t.now first count)) }
{
    let end = at + count;
    store(t, first, &mut out[at..end]);
}

// What made a literal what it is: the marks go first into the buffer, state first. The literals' words stand in t, and the marks past them.
fn explain_literal(n: Counts, gates: &[u32], l: Lit, t: &mut [u32], marks: &mut [u8])
    requires { Asked n gates.now (word_of l) t.old marks.old }
    ensures { (x : Tables) (latches outputs : List ℕ) (s i : List Value) → Runs n (these x latches outputs gates.now)
        → Settled n (circuit_of n (these x latches outputs gates.now)) s i t.old
        → marks.new
        ≡ put marks.old 0 (marks_for (circuit_of n (these x latches outputs gates.now)) s i (word_of l)) }
{
    let size = n.M + 1;
    let lits = size + n.O;
    let m = lits + 2 * size;
    unmark(m, size, t);
    mark(l, m, t);
    blame(gates, n.A, lits, m, size, t);
    show(t, m + (1 + n.I), n.L, marks, 0);
    show(t, m + 1, n.I, marks, n.L);
}

// The values of all literals in a step whose tables and vectors are good. Every word is written before it is read.
fn settle(
    n: Counts,
    latches: &[u32],
    outputs: &[u32],
    gates: &[u32],
    scratch: &mut [u32],
    state: &[u8],
    ins: &[u8],
)
    requires room { Room n latches.now outputs.now gates.now scratch.old }
    requires vectors { Vectors n state.now ins.now }
    ensures { (x : Tables) → Runs n (these x latches.now outputs.now gates.now)
        → Settled n (circuit_of n (these x latches.now outputs.now gates.now))
        (map value_of state.now) (map value_of ins.now) scratch.new }
{
    // the constant
    scratch[0] = MAY0;
    load(state, 1 + n.I, scratch);
    load(ins, 1, scratch);
    step_values(n, latches, outputs, gates, scratch);
}

// One output explained, where tables and vectors are good: 17, then 11, then the marks.
fn explain_output(
    n: Counts,
    latches: &[u32],
    outputs: &[u32],
    gates: &[u32],
    scratch: &mut [u32],
    state: &[u8],
    ins: &[u8],
    output: usize,
    marks: &mut [u8],
) -> Result<(), Refusal>
    requires room { Room n latches.now outputs.now gates.now scratch.old }
    requires vectors { Vectors n state.now ins.now }
    ensures { (x : Tables) (t : List ℕ) → Runs n (these x latches.now outputs.now gates.now)
        → Explains (record {
          circuit = given_at n (these x latches.now outputs.now gates.now) t;
          state = state.now;
          inputs = ins.now;
          output = output;
          marks = marks.old;
        }) result marks.new }
{
    if output >= n.O {
        return Err(Refusal::NotExplained(1));
    }
    settle(n, latches, outputs, gates, scratch, state, ins);
    let value = scratch[n.M + 1 + output];
    let needed = n.L + n.I;
    if value == MAY0 | MAY1 {
        return Err(Refusal::NotExplained(2));
    }
    if marks.len() < needed {
        return Err(Refusal::ShortBuffer(needed));
    }
    explain_literal(n, gates, Lit::at(outputs[output]), scratch, marks);
    Ok(())
}

// Which places of state and inputs made an output 0 or 1: "1" for marked and "0" for not, in the first L + I bytes of the buffer, state
// first. On a refusal the buffer stays as it came; scratch is zero afterwards.
pub fn explain(
    n: Counts,
    inputs: &[u32],
    latches: &[u32],
    outputs: &[u32],
    gates: &[u32],
    resets: &[u32],
    bads: &[u32],
    constraints: &[u32],
    scratch: &mut [u32],
    state: &[u8],
    ins: &[u8],
    output: usize,
    marks: &mut [u8],
) -> Result<(), Refusal>
    ensures { Blames explain n inputs latches outputs gates resets bads constraints scratch state ins output marks result }
{
    judge_in_order(
        n,
        inputs,
        latches,
        outputs,
        gates,
        resets,
        bads,
        constraints,
        scratch,
    )?;
    if let Some(bad) = bad_vector(n, state, ins, n.O) {
        clear(scratch);
        return Err(Refusal::BadVector(bad));
    }
    let answer = explain_output(
        n, latches, outputs, gates, scratch, state, ins, output, marks,
    );
    clear(scratch);
    answer
}
