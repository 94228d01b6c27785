// Binary order over given tables, refusal 15: M = I + L + A, the defining literals run from 2 on, and every gate keeps
// lhs > rhs0 >= rhs1 (the paper, binary form; AIGER report, section 11).
ghost use Rattle.std.specs.Prelude.{◌≡◌, ◌&&◌, List, map, ℕ, ◌+◌, ◌*◌, ◌<◌, ◌≤◌, eqb, leb, ltb, length};
ghost use Rattle.plan.specs.Literals.{lit_of};
ghost use Rattle.plan.specs.Circuit.{gate_of, rows_of};
ghost use Rattle.plan.specs.Binary.{runs, falls, binary_order};
ghost use Rattle.tables.specs.Held.{circuit_in};
ghost use Rattle.judge.specs.binary_order.Tables.{Long};

use plan::{Counts, Lit, Var};

// Whether a table's word is the literal of variable v.
fn stands_for(word: u32, v: u32) -> bool
    requires { v < 2147483648 }
    ensures { result ≡ eqb word (lit_of v) }
{
    Lit::at(word).word() == Var::at(v).lit().word()
}

// Whether n rows, of `stride` words of which the first defines, define the variables from `first` on, in this order.
#[tactic(auto, using(laws::proofs::Tables::row_ends))]
fn runs_on(table: &[u32], stride: usize, n: usize, first: u32) -> bool
    requires stride_nonzero { 0 < stride }
    requires n_in_bounds { stride * n ≤ length table.now }
    requires n_bound { first + n ≤ 2147483648 }
    ensures { result ≡ runs first (rows_of stride n table.now) }
{
    for i in 0..n {
        if !stands_for(table[stride * i], first + i as u32) {
            return false;
        }
    }
    true
}

// Whether a gate keeps lhs > rhs0 >= rhs1, so that both its differences can be written.
fn falls_at(lhs: u32, rhs0: u32, rhs1: u32) -> bool
    ensures { result ≡ (ltb rhs0 lhs && leb rhs1 rhs0) }
{
    let larger = Lit::at(rhs0);
    if !larger.below(Lit::at(lhs)) {
        return false;
    }
    !larger.below(Lit::at(rhs1))
}

// Whether a gate is that of variable v and keeps this.
fn stands_at(lhs: u32, rhs0: u32, rhs1: u32, v: u32) -> bool
    requires { v < 2147483648 }
    ensures { result ≡ (eqb lhs (lit_of v) && (ltb rhs0 lhs && leb rhs1 rhs0)) }
{
    if !stands_for(lhs, v) {
        return false;
    }
    falls_at(lhs, rhs0, rhs1)
}

// The same of n gates, whose variables run from `first` on: one pass.
fn gates_in_order(gates: &[u32], n: usize, first: u32) -> bool
    requires n_in_bounds { 3 * n ≤ length gates.now }
    requires n_bound { first + n ≤ 2147483648 }
    ensures { result ≡ (runs first (rows_of 3 n gates.now) && falls
        (map gate_of (rows_of 3 n gates.now))) }
{
    for i in 0..n {
        let at = 3 * i;
        if !stands_at(gates[at], gates[at + 1], gates[at + 2], first + i as u32) {
            return false;
        }
    }
    true
}

// Outputs, bad states and constraints have no order to keep.
pub fn in_binary_order(n: Counts, inputs: &[u32], latches: &[u32], gates: &[u32]) -> bool
    requires { Long n inputs.now latches.now gates.now }
    ensures { (outputs resets bads constraints : List ℕ) → result
        ≡ binary_order (circuit_in n inputs.now latches.now outputs
        gates.now resets bads constraints) }
{
    if n.I + n.L + n.A != n.M {
        return false;
    }
    if !runs_on(inputs, 1, n.I, 1) {
        return false;
    }
    if !runs_on(latches, 2, n.L, (1 + n.I) as u32) {
        return false;
    }
    gates_in_order(gates, n.A, (1 + n.I + n.L) as u32)
}
