// Refusal 7: each variable that is used must be defined (the paper, text form; AIGER report, section 7).
ghost use Rattle.std.specs.Prelude.{◌≡◌, List, ◌++◌, ℕ, ◌+◌, ◌*◌, ◌≤◌, ◌<◌, length, get_or};
ghost use Rattle.plan.specs.Literals.{var_of};
ghost use Rattle.plan.specs.Circuit.{seven, circuit_of, rights, defined_in};
ghost use Rattle.plan.specs.Depends.{undefined_in};
ghost use Rattle.laws.proofs.Marks.{Agrees};
ghost use Rattle.laws.proofs.Tables.{gates_at};
ghost use Rattle.judge.specs.used.Least.{every, words, lower, lowest};
ghost use Rattle.judge.specs.used.Reach.{Observed, InReach};

use plan::{Counts, Lit};
use tables::bitmap;

// The variable of a table's word.
fn variable(word: u32) -> u32
    ensures { result ≡ var_of word }
{
    Lit::at(word).var().index()
}

// The least so far, or the variable of a used literal below it that has no mark. Nearly every variable has one, so
// one test decides nearly always.
fn lower(least: u32, word: u32, marks: &[u32]) -> u32
    requires { var_of word < length marks.now }
    ensures { result ≡ lower marks.now least word }
{
    let v = variable(word);
    if bitmap::is_on(marks, 0, v as usize) {
        return least;
    }
    // Variable 0, of the constants, needs no definition.
    if v == 0 {
        return least;
    }
    if v < least {
        return v;
    }
    least
}

// The same over n words of a table, from `start` on by `stride`.
#[tactic(auto, using(laws::proofs::Tables::row_ends))]
fn least(table: &[u32], start: usize, stride: usize, n: usize, marks: &[u32], before: u32) -> u32
    requires start_lt_stride { start < stride }
    requires n_in_bounds { stride * n ≤ length table.now }
    requires by_index { (i : ℕ) → i < n → var_of (get_or table.now (stride * i + start) 0) < length marks.now }
    ensures { result ≡ lowest marks.now before (every table.now start stride n) }
{
    let mut low = before;
    for i in 0..n {
        low = lower(low, table[stride * i + start], marks);
    }
    low
}

// The same over both right sides of n gates.
fn least_right(gates: &[u32], n: usize, marks: &[u32], before: u32) -> u32
    requires n_in_bounds { 3 * n ≤ length gates.now }
    requires by_index { (i : ℕ) → i < n → var_of (get_or gates.now (3 * i + 1) 0) < length marks.now }
    requires by_index_2 { (i : ℕ) → i < n → var_of (get_or gates.now (3 * i + 2) 0) < length marks.now }
    ensures { result ≡ lowest marks.now before (rights (gates_at gates.now n)) }
{
    let mut low = before;
    for i in 0..n {
        low = lower(low, gates[3 * i + 1], marks);
        low = lower(low, gates[3 * i + 2], marks);
    }
    low
}

// The same over outputs, bad states and constraints, which are observed.
fn least_observed(
    n: Counts,
    outputs: &[u32],
    bads: &[u32],
    constraints: &[u32],
    marks: &[u32],
    before: u32,
) -> u32
    requires { Observed n outputs.now bads.now constraints.now marks.now }
    ensures { result ≡ lowest marks.now before
        (words outputs.now n.O ++ (words bads.now n.B
        ++ words constraints.now n.C)) }
{
    let by_outputs = least(outputs, 0, 1, n.O, marks, before);
    let by_bads = least(bads, 0, 1, n.B, marks, by_outputs);
    least(constraints, 0, 1, n.C, marks, by_bads)
}

// The least variable of a next state, of what is observed or of a right side that is not defined, from marks of
// those that are.
pub fn undefined(
    n: Counts,
    latches: &[u32],
    outputs: &[u32],
    gates: &[u32],
    bads: &[u32],
    constraints: &[u32],
    marks: &[u32],
) -> Option<usize>
    requires { InReach n latches.now outputs.now gates.now bads.now constraints.now marks.now }
    ensures { (inputs resets : List ℕ) → let c = circuit_of n
        (seven inputs latches.now outputs.now gates.now resets bads.now
        constraints.now) in Agrees n.M (defined_in c) marks.now → result ≡ undefined_in c }
{
    let m = n.M as u32;
    // One more than M: above every variable.
    let none = m + 1;
    let by_latches = least(latches, 1, 2, n.L, marks, none);
    let by_observed = least_observed(n, outputs, bads, constraints, marks, by_latches);
    let by_gates = least_right(gates, n.A, marks, by_observed);
    if by_gates > m {
        return None;
    }
    Some(by_gates as usize)
}
