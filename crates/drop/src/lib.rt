// Unused gates are dropped and the gaps closed in order: marks from the roots down, then one pass up (the paper,
// unused gates).
#![tactic(auto)]

ghost use Rattle.std.specs.Prelude.{◌≡◌, List, [], ◌∷◌, ◌++◌, ℕ, ◌+◌, ◌*◌, ◌<◌, ◌≤◌, length};
ghost use Rattle.plan.specs.Literals.{var_of, word_of};
ghost use Rattle.plan.specs.Walk.{walk};
ghost use Rattle.plan.specs.Drop.{sides_of, dropping};
ghost use Rattle.laws.proofs.Tables.{gate_at, gates_at};
ghost use Rattle.drop.specs.Marks.{Marked, Below};
ghost use Rattle.drop.specs.Retained.{Roomy, Stepped, Retainable, Done};
ghost use Rattle.drop.specs.Reached.{column, reached_in, Marking, Reachable};
ghost use Rattle.plan.specs.Lent.{Makes};

use judge::check_to_make;
use lines::gates::run_on;
use plan::{Counts, Lit, Refusal};
use reduce::folding::becomes;
use reduce::pairs::left_side;
use reduce::three_become;
use tables::{clear, clear_all, lengths};

// Marks a literal's variable.
fn mark(l: Lit, t: &mut [u32])
    requires { var_of (word_of l) < length t.old }
    ensures { (seen : List ℕ) → Marked seen t.old
        → Marked (var_of (word_of l) ∷ seen) t.new }
{
    let v = l.var().index() as usize;
    t[v] = 1;
}

// Marks the variables of n words of a table, from `start` on by `stride`.
fn mark_column(table: &[u32], stride: usize, start: usize, n: usize, t: &mut [u32])
    requires start_lt_stride { start < stride }
    requires marking { Marking table.now stride start n t.old }
    ensures { (seen : List ℕ) → Marked seen t.old
        → Marked (column table.now stride start n ++ seen) t.new }
{
    for i in 0..n {
        mark(Lit::at(table[stride * i + start]), t);
    }
}

// A gate that is reached reaches both right sides.
fn reach_from(gates: &[u32], k: usize, t: &mut [u32])
    requires k_in_bounds { 3 * k + 2 < length gates.now }
    requires below { Below (length t.old) (gate_at gates.now k) }
    ensures { (seen : List ℕ) → Marked seen t.old
        → Marked (walk sides_of (gate_at gates.now k ∷ []) seen) t.new }
{
    let v = Lit::at(gates[3 * k]).var().index() as usize;
    if t[v] == 0 {
        return;
    }
    mark(Lit::at(gates[3 * k + 2]), t);
    mark(Lit::at(gates[3 * k + 1]), t);
}

// From the last gate to the first: in binary order a gate is marked, if at all, before it is come to.
fn reach(gates: &[u32], a: usize, t: &mut [u32])
    requires a_in_bounds { 3 * a ≤ length gates.now }
    requires by_index { (k : ℕ) → k < a → Below (length t.old) (gate_at gates.now k) }
    ensures { (seen : List ℕ) → Marked seen t.old
        → Marked (walk sides_of (gates_at gates.now a) seen) t.new }
{
    for k in (0..a).rev() {
        reach_from(gates, k, t);
    }
}

// Gate k. If it is not marked it is dropped, and its word says 0, which nothing asks for; else it is retained with
// the next variable.
fn retain_gate(
    gates: &[u32],
    base: usize,
    k: usize,
    n: usize,
    to: &mut [u32],
    t: &mut [u32],
) -> usize
    requires { Roomy gates.now to.old t.old base k n }
    ensures { Stepped gates.now to.old to.new t.old
        t.new base k n result }
{
    if t[base + k] == 0 {
        return n;
    }
    let l = left_side(base, n).word();
    let a = becomes(t, Lit::at(gates[3 * k + 1]));
    let b = becomes(t, Lit::at(gates[3 * k + 2]));
    let row = 3 * n;
    to[row] = l;
    to[row + 1] = a.larger(b).word();
    to[row + 2] = a.smaller(b).word();
    t[base + k] = l;
    n + 1
}

// The gates of marked variables, in order, and their number; first in t, where the marks stood, what each variable
// became.
fn retain_gates(gates: &[u32], base: usize, a: usize, to: &mut [u32], t: &mut [u32]) -> usize
    requires { Retainable gates.now to.old t.old base a }
    ensures { (vs : List ℕ) → Marked vs t.old
        → Done vs gates.now to.old to.new t.new base a result }
{
    run_on(t, 0, base);
    let mut n = 0;
    for k in 0..a {
        n = retain_gate(gates, base, k, n, to, t);
    }
    n
}

// The gates that next states, outputs, bad states and constraints reach, and their number; first in t what each
// variable became.
fn retain_reached(
    n: Counts,
    latches: &[u32],
    outputs: &[u32],
    gates: &[u32],
    bads: &[u32],
    constraints: &[u32],
    to: &mut [u32],
    t: &mut [u32],
) -> usize
    requires { Reachable n latches.now outputs.now gates.now bads.now constraints.now to.old t.old }
    ensures { Done (reached_in n latches.now outputs.now gates.now
        bads.now constraints.now) gates.now to.old to.new
        t.new (1 + n.I + n.L) n.A result }
{
    mark_column(constraints, 1, 0, n.C, t);
    mark_column(bads, 1, 0, n.B, t);
    mark_column(outputs, 1, 0, n.O, t);
    mark_column(latches, 2, 1, n.L, t);
    reach(gates, n.A, t);
    retain_gates(gates, 1 + n.I + n.L, n.A, to, t)
}

// The circuit without its unused gates in the tables lent for writing, which are zero past it, and its counts; or
// the first refusal, with 15, after which they are zero throughout. Scratch is zero afterwards. Gates come first,
// in order, and the literals of the other tables follow; a constant, an input and a latch stay, so that a table is
// replaced whole.
pub fn drop_unused(
    n: Counts,
    inputs: &[u32],
    latches: &[u32],
    outputs: &[u32],
    gates: &[u32],
    resets: &[u32],
    bads: &[u32],
    constraints: &[u32],
    to_inputs: &mut [u32],
    to_latches: &mut [u32],
    to_outputs: &mut [u32],
    to_gates: &mut [u32],
    to_resets: &mut [u32],
    to_bads: &mut [u32],
    to_constraints: &mut [u32],
    scratch: &mut [u32],
) -> Result<Counts, Refusal>
    ensures { Makes dropping n inputs latches outputs gates resets bads constraints to_inputs to_latches
        to_outputs to_gates to_resets to_bads to_constraints scratch result }
{
    clear_all(
        to_inputs,
        to_latches,
        to_outputs,
        to_gates,
        to_resets,
        to_bads,
        to_constraints,
    );
    let to = lengths(
        to_inputs,
        to_latches,
        to_outputs,
        to_gates,
        to_resets,
        to_bads,
        to_constraints,
    );
    check_to_make(
        n,
        inputs,
        latches,
        outputs,
        gates,
        resets,
        bads,
        constraints,
        scratch,
        to,
        true,
    )?;
    let retained = retain_reached(
        n,
        latches,
        outputs,
        gates,
        bads,
        constraints,
        to_gates,
        scratch,
    );
    three_become(
        inputs,
        n.I,
        latches,
        2 * n.L,
        outputs,
        n.O,
        scratch,
        to_inputs,
        to_latches,
        to_outputs,
    );
    three_become(
        resets,
        n.L,
        bads,
        n.B,
        constraints,
        n.C,
        scratch,
        to_resets,
        to_bads,
        to_constraints,
    );
    clear(scratch);
    Ok(Counts {
        M: n.I + n.L + retained,
        I: n.I,
        L: n.L,
        O: n.O,
        A: retained,
        B: n.B,
        C: n.C,
    })
}
