// The plain engine: a step straight from the rules, for teaching circuits (the paper, the plain engine). The value
// of a literal asks for its variable, and the value of a gate's variable asks for two literals; nothing is held but
// the next states. docs/LESSON.md walks through it.
#![tactic(auto)]

ghost use Rattle.std.specs.Prelude.{◌≡◌, true, ◌≤◌, length, take};
ghost use Rattle.plan.specs.Literals.{index_of, var_of, word_of};
ghost use Rattle.plan.specs.Circuit.{Tables, circuit_of};
ghost use Rattle.plan.specs.Step.{code_of, value_of, inv, and, lit};
ghost use Rattle.plan.specs.Outcome.{all_codes, put};
ghost use Rattle.step.specs.sweep.Running.{these, Runs};
ghost use Rattle.step.specs.Asked.{Room, Vectors, Leaves};
ghost use Rattle.plan.specs.Plain.{plain_step};
ghost use Rattle.plain.specs.Asked.{variable_in, Teaches, Outs, Nexts, Bytes, output_codes, next_codes};
ghost use Rattle.plan.specs.Lent.{Steps};

use judge::judge_in_order;
use plan::{Counts, Lit, Refusal, Var};
use step::codes::bad_vector;
use tables::clear;

// The gates that a teaching circuit has at most.
pub const TEACHING: usize = 24;

// 0 and 1 exchange, x stays.
fn not_of(a: u8) -> u8
    ensures { result ≡ code_of (inv (value_of a)) }
{
    if a == b'0' {
        return b'1';
    }
    if a == b'1' {
        return b'0';
    }
    b'x'
}

// 0 if either is 0, 1 if both are 1, else x.
fn and_of(a: u8, b: u8) -> u8
    ensures { result ≡ code_of (and (value_of a) (value_of b)) }
{
    if a == b'0' {
        return b'0';
    }
    if b == b'0' {
        return b'0';
    }
    if a != b'1' {
        return b'x';
    }
    if b != b'1' {
        return b'x';
    }
    b'1'
}

// The value of a literal: its variable's, negated if it has the sign.
#[cycle(literal_value_variable_value)]
fn literal_value(n: Counts, gates: &[u32], state: &[u8], ins: &[u8], l: Lit) -> u8
    requires teaches { Teaches n gates.now state.now ins.now }
    requires l_bound { var_of (word_of l) ≤ n.M }
    ensures { result ≡ code_of (lit (variable_in n gates.now state.now ins.now)
        (word_of l)) }
{
    let value = variable_value(n, gates, state, ins, l.var());
    if l.sign() == 0 {
        return value;
    }
    not_of(value)
}

// The value of a variable: the constant's, an input's, a latch's, or the And of its gate's two right sides, which
// are of lower variables (AIGER report, section 11), so that the asking ends.
#[cycle(literal_value_variable_value)]
fn variable_value(n: Counts, gates: &[u32], state: &[u8], ins: &[u8], v: Var) -> u8
    requires teaches { Teaches n gates.now state.now ins.now }
    requires v_bound { index_of v ≤ n.M }
    ensures { result ≡ code_of (variable_in n gates.now state.now ins.now
        (index_of v)) }
{
    let index = v.index() as usize;
    if index == 0 {
        return b'0';
    }
    if index <= n.I {
        return ins[index - 1];
    }
    if index <= n.I + n.L {
        return state[index - 1 - n.I];
    }
    let row = 3 * (index - 1 - n.I - n.L);
    let first = literal_value(n, gates, state, ins, Lit::at(gates[row + 1]));
    let second = literal_value(n, gates, state, ins, Lit::at(gates[row + 2]));
    and_of(first, second)
}

// The outputs' values go into their buffer.
fn give_outputs(
    n: Counts,
    outputs: &[u32],
    gates: &[u32],
    state: &[u8],
    ins: &[u8],
    outs: &mut [u8],
)
    requires teaches { Teaches n gates.now state.now ins.now }
    requires outs { Outs n outputs.now outs.old }
    ensures { outs.new ≡ output_codes n outputs.now gates.now state.now
        ins.now }
{
    for i in 0..n.O {
        outs[i] = literal_value(n, gates, state, ins, Lit::at(outputs[i]));
    }
}

// The next states go into the first words of a table, as the state is asked for until the last of them is known.
fn hold_next(n: Counts, latches: &[u32], gates: &[u32], state: &[u8], ins: &[u8], t: &mut [u32])
    requires teaches { Teaches n gates.now state.now ins.now }
    requires nexts { Nexts n latches.now t.old }
    ensures { t.new ≡ put t.old 0
        (next_codes n latches.now gates.now state.now ins.now) }
{
    for i in 0..n.L {
        t[i] = literal_value(n, gates, state, ins, Lit::at(latches[2 * i + 1])) as u32;
    }
}

// All latches take their next values at once.
fn take_next(t: &[u32], state: &mut [u8])
    requires { Bytes t.now state.old }
    ensures { state.new ≡ take (length state.old) t.now }
{
    for i in 0..state.len() {
        state[i] = t[i] as u8;
    }
}

// A step whose tables and vectors are good.
pub fn plain_vectors(
    n: Counts,
    latches: &[u32],
    outputs: &[u32],
    gates: &[u32],
    scratch: &mut [u32],
    state: &mut [u8],
    ins: &[u8],
    outs: &mut [u8],
)
    requires room { Room n latches.now outputs.now gates.now scratch.old }
    requires vectors { Vectors n state.old ins.now outs.old }
    requires state_value { all_codes state.old ≡ true }
    requires ins_value { all_codes ins.now ≡ true }
    ensures { (x : Tables) → Runs n (these x latches.now outputs.now gates.now)
        → Leaves (circuit_of n (these x latches.now outputs.now gates.now))
        state.old ins.now state.new outs.new }
{
    give_outputs(n, outputs, gates, state, ins, outs);
    hold_next(n, latches, gates, state, ins, scratch);
    take_next(scratch, state);
}

// One step by the rules alone: the outputs go into their buffer, and the next state over the state. On a refusal no
// vector changes; scratch is zero afterwards.
pub fn step_plain(
    n: Counts,
    inputs: &[u32],
    latches: &[u32],
    outputs: &[u32],
    gates: &[u32],
    resets: &[u32],
    bads: &[u32],
    constraints: &[u32],
    scratch: &mut [u32],
    state: &mut [u8],
    ins: &[u8],
    outs: &mut [u8],
) -> Result<(), Refusal>
    ensures { Steps plain_step n inputs latches outputs gates resets bads constraints scratch state ins outs result }
{
    judge_in_order(
        n,
        inputs,
        latches,
        outputs,
        gates,
        resets,
        bads,
        constraints,
        scratch,
    )?;
    if TEACHING < n.A {
        clear(scratch);
        return Err(Refusal::ManyGates(n.A));
    }
    if let Some(bad) = bad_vector(n, state, ins, outs.len()) {
        clear(scratch);
        return Err(Refusal::BadVector(bad));
    }
    plain_vectors(n, latches, outputs, gates, scratch, state, ins, outs);
    clear(scratch);
    Ok(())
}
