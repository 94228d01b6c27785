// Reduction: folds gates in order, and writes what is left of the circuit into tables lent for writing (the paper,
// reduction).
#![tactic(auto)]

ghost use Rattle.std.specs.Prelude.{◌≡◌};
ghost use Rattle.plan.specs.Outcome.{reduction};
ghost use Rattle.reduce.specs.Becoming.{Replaceable, replaced};
ghost use Rattle.plan.specs.Lent.{Makes};

use crate::folding::{becomes, fold_gates};
use judge::check_to_make;
use plan::{Counts, Lit, Refusal};
use tables::{clear, clear_all, lengths};

pub mod folding;
pub mod pairs;

// The first n literals of a table, each replaced by what it became.
fn all_become(table: &[u32], n: usize, became: &[u32], to: &mut [u32])
    requires { Replaceable n table.now became.now to.old }
    ensures { to.new ≡ replaced n table.now became.now to.old }
{
    for i in 0..n {
        to[i] = becomes(became, Lit::at(table[i])).word();
    }
}

// The same of three tables.
pub fn three_become(
    a: &[u32],
    i: usize,
    b: &[u32],
    j: usize,
    c: &[u32],
    k: usize,
    became: &[u32],
    to_a: &mut [u32],
    to_b: &mut [u32],
    to_c: &mut [u32],
)
    requires replaceable { Replaceable i a.now became.now to_a.old }
    requires replaceable_2 { Replaceable j b.now became.now to_b.old }
    requires replaceable_3 { Replaceable k c.now became.now to_c.old }
    ensures to_a_after { to_a.new ≡ replaced i a.now became.now to_a.old }
    ensures to_b_after { to_b.new ≡ replaced j b.now became.now to_b.old }
    ensures to_c_after { to_c.new ≡ replaced k c.now became.now to_c.old }
{
    all_become(a, i, became, to_a);
    all_become(b, j, became, to_b);
    all_become(c, k, became, to_c);
}

// The reduced circuit in the tables lent for writing, which are zero past it, and its counts; or the first refusal,
// with 15, after which they are zero throughout. Scratch is zero afterwards. Gates come first, in order, and the
// literals of the other tables follow; a constant, an input and a latch became themselves, so that a table is
// replaced whole.
pub fn reduce(
    n: Counts,
    inputs: &[u32],
    latches: &[u32],
    outputs: &[u32],
    gates: &[u32],
    resets: &[u32],
    bads: &[u32],
    constraints: &[u32],
    to_inputs: &mut [u32],
    to_latches: &mut [u32],
    to_outputs: &mut [u32],
    to_gates: &mut [u32],
    to_resets: &mut [u32],
    to_bads: &mut [u32],
    to_constraints: &mut [u32],
    scratch: &mut [u32],
) -> Result<Counts, Refusal>
    ensures { Makes reduction n inputs latches outputs gates resets bads constraints to_inputs to_latches
        to_outputs to_gates to_resets to_bads to_constraints scratch result }
{
    clear_all(
        to_inputs,
        to_latches,
        to_outputs,
        to_gates,
        to_resets,
        to_bads,
        to_constraints,
    );
    let to = lengths(
        to_inputs,
        to_latches,
        to_outputs,
        to_gates,
        to_resets,
        to_bads,
        to_constraints,
    );
    check_to_make(
        n,
        inputs,
        latches,
        outputs,
        gates,
        resets,
        bads,
        constraints,
        scratch,
        to,
        true,
    )?;
    let retained = fold_gates(gates, 1 + n.I + n.L, n.A, to_gates, scratch);
    three_become(
        inputs,
        n.I,
        latches,
        2 * n.L,
        outputs,
        n.O,
        scratch,
        to_inputs,
        to_latches,
        to_outputs,
    );
    three_become(
        resets,
        n.L,
        bads,
        n.B,
        constraints,
        n.C,
        scratch,
        to_resets,
        to_bads,
        to_constraints,
    );
    clear(scratch);
    Ok(Counts {
        M: n.I + n.L + retained,
        I: n.I,
        L: n.L,
        O: n.O,
        A: retained,
        B: n.B,
        C: n.C,
    })
}
