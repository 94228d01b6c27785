// A step in three values over tables in binary order: one sweep over the gates gives each literal's value (the paper, stepping).
ghost use Rattle.std.specs.Prelude.{◌≡◌, List, [], ◌∷◌, map, ◌+◌, ◌<◌, ◌≤◌, length, get_or, take};
ghost use Rattle.plan.specs.Literals.{word_of, neg_of};
ghost use Rattle.plan.specs.Circuit.{Tables, circuit_of};
ghost use Rattle.plan.specs.Step.{Value, reset_value, any1, all1};
ghost use Rattle.plan.specs.Outcome.{put};
ghost use Rattle.step.specs.values.Words.{told, Coded};
ghost use Rattle.step.specs.sweep.Lookup.{lit_words, and_words, word_at, Inside, Spreads, spread, Gated, Settles, Sweeps, swept, Looks, looked, Sees, seen};
ghost use Rattle.step.specs.sweep.Running.{these, Runs, Rests, Stands, Stepped, Ready};

use crate::values::{MAY0, MAY1, load_resets};
use plan::{Counts, Lit, Var};

// Whether a literal may be 1: one read, whatever its sign, as each literal has a word of its own.
fn may_be_1(t: &[u32], lits: usize, l: Lit) -> u32
    requires { lits + word_of l < length t.now }
    ensures { result ≡ get_or t.now (lits + word_of l) 0 }
{
    let at = lits + l.word() as usize;
    t[at]
}

// Whether it may be 0: its negation may be 1 then. Not exchanges the two, by looking at the other word.
fn may_be_0(t: &[u32], lits: usize, l: Lit) -> u32
    requires { lits + neg_of (word_of l) < length t.now }
    ensures { result ≡ get_or t.now (lits + neg_of (word_of l)) 0 }
{
    may_be_1(t, lits, l.negated())
}

// The value of a literal.
fn value_of(t: &[u32], lits: usize, l: Lit) -> u32
    requires { Inside lits t.now (word_of l) }
    ensures { result ≡ word_at lits t.now (word_of l) }
{
    may_be_0(t, lits, l) | (may_be_1(t, lits, l) << 1)
}

// The And of two literals: it may be 1 if both may, and 0 if either may.
fn put_and(a: Lit, b: Lit, lits: usize, to: usize, t: &mut [u32])
    requires inside { Inside lits t.old (word_of a) }
    requires inside_2 { Inside lits t.old (word_of b) }
    requires to_in_bounds { to + 2 ≤ length t.old }
    ensures { t.new ≡ put t.old to (and_words lits t.old (word_of a) (word_of b)) }
{
    let may1 = may_be_1(t, lits, a) & may_be_1(t, lits, b);
    let may0 = may_be_0(t, lits, a) | may_be_0(t, lits, b);
    t[to] = may1;
    t[to + 1] = may0;
}

// A variable's value goes to its literal's word, whether it may be 1, and to that of the negated literal, whether it may be 0.
fn put_value(value: u32, to: usize, t: &mut [u32])
    requires coded { Coded value }
    requires to_in_bounds { to + 2 ≤ length t.old }
    ensures { t.new ≡ put t.old to (lit_words (told value ∷ [])) }
{
    t[to] = value >> 1;
    t[to + 1] = value & 1;
}

// The leaves' values, in the first n words, go to their literals' words, where gates and look ups read.
fn spread_leaves(n: usize, lits: usize, t: &mut [u32])
    requires { Spreads n lits t.old }
    ensures { t.new ≡ spread n lits t.old }
{
    for v in 0..n {
        let value = t[v];
        put_value(value, lits + 2 * v, t);
    }
}

// The values of n gates, whose variables run on from `first`; no test on a value decides the way (the paper, stepping). A literal's word
// stands at its own number.
fn settle_gates(gates: &[u32], n: usize, first: usize, t: &mut [u32])
    requires { Gated gates.now n first t.old }
    ensures { Settles gates.now n first t.old t.new }
{
    let start = Var::at(first as u32).lit().word() as usize;
    for i in 0..n {
        let a = Lit::at(gates[3 * i + 1]);
        let b = Lit::at(gates[3 * i + 2]);
        put_and(a, b, 0, start + 2 * i, t);
    }
}

// The same where the literals' words start at `lits`: that part is lent, so that no look adds it.
fn sweep_gates(gates: &[u32], n: usize, first: usize, lits: usize, t: &mut [u32])
    requires { Sweeps gates.now n first lits t.old }
    ensures { t.new ≡ swept gates.now n first lits t.old }
{
    settle_gates(gates, n, first, &mut t[lits..]);
}

// The values of n literals of a table, from `start` on by `stride`, go into words from `first` on, which lie before the literals'.
fn look_up(
    table: &[u32],
    start: usize,
    stride: usize,
    n: usize,
    lits: usize,
    first: usize,
    t: &mut [u32],
)
    requires { Looks table.now start stride n lits first t.old }
    ensures { t.new ≡ put t.old first (looked table.now start stride n lits t.old) }
{
    for i in 0..n {
        t[first + i] = value_of(t, lits, Lit::at(table[stride * i + start]));
    }
}

// One step, from the state and the inputs that stand in the leaves' words. Outputs and next state are looked up in the literals' words,
// which no look up changes, so that all latches take their next values at once.
pub fn step_values(n: Counts, latches: &[u32], outputs: &[u32], gates: &[u32], t: &mut [u32])
    requires { Ready n latches.now outputs.now gates.now t.old }
    ensures { (x : Tables) (s i : List Value)
        → Runs n (these x latches.now outputs.now gates.now)
        → Stands n s i t.old
        → Stepped n (circuit_of n (these x latches.now outputs.now gates.now)) s i t.new }
{
    let state = 1 + n.I;
    let out = n.M + 1;
    let lits = out + n.O;
    spread_leaves(state + n.L, lits, t);
    sweep_gates(gates, n.A, state + n.L, lits, t);
    look_up(outputs, 0, 1, n.O, lits, out, t);
    look_up(latches, 1, 2, n.L, lits, state, t);
}

// The constant and the state of the resets, from which a run starts. Of the words it asks the length alone.
pub fn start_values(n: Counts, resets: &[u32], t: &mut [u32])
    requires { (n.L ≤ length resets.now) × (1 + n.I + n.L ≤ length t.old) }
    ensures { Rests n (map reset_value (take n.L resets.now)) t.new }
{
    t[0] = MAY0;
    load_resets(resets, n.L, 1 + n.I, t);
}

// Whether one of the first n literals of a table is 1 after a step.
pub fn any_lit(table: &[u32], n: usize, lits: usize, t: &[u32]) -> bool
    requires { Sees table.now n lits t.now }
    ensures { result ≡ any1 (seen lits t.now (take n table.now)) }
{
    for l in &table[..n] {
        if value_of(t, lits, Lit::at(*l)) == MAY1 {
            return true;
        }
    }
    false
}

// Whether all of them are.
pub fn all_lits(table: &[u32], n: usize, lits: usize, t: &[u32]) -> bool
    requires { Sees table.now n lits t.now }
    ensures { result ≡ all1 (seen lits t.now (take n table.now)) }
{
    for l in &table[..n] {
        if value_of(t, lits, Lit::at(*l)) != MAY1 {
            return false;
        }
    }
    true
}
