// One-level folding of gates in binary order (the paper, reduction).
ghost use Rattle.std.specs.Prelude.{◌≡◌, ◌++◌, map, ◌+◌, ◌*◌, ◌<◌, ◌≤◌, length, drop};
ghost use Rattle.plan.specs.Literals.{most, lit_at, word_of, var_of};
ghost use Rattle.plan.specs.Circuit.{gate_line, flat};
ghost use Rattle.plan.specs.Binary.{lits_from};
ghost use Rattle.plan.specs.Reduce.{becomes};
ghost use Rattle.plan.specs.Outcome.{put};
ghost use Rattle.reduce.specs.pairs.Pairs.{Tree, Room, Rooted, named};
ghost use Rattle.reduce.specs.folding.Rules.{Ruled, StandsIn};
ghost use Rattle.reduce.specs.folding.Folded.{Held, Roomy, Stepped, Foldable, Done};

use crate::pairs;
use crate::pairs::{Place, left_side};
use plan::{Lit, Var};

// What a literal became, where the table's words are what the variables became.
pub fn becomes(became: &[u32], l: Lit) -> Lit
    requires { var_of (word_of l) < length became.now }
    ensures { result ≡ lit_at (becomes became.now (word_of l)) }
{
    let v = l.var().index() as usize;
    Lit::at(became[v]).signed_as(l)
}

// What two sides give with no look at the retained gates. Equal sides give that side; a side and its negation give
// 0; a side 0 gives 0; a side 1 gives the other.
fn by_sides(a: Lit, b: Lit) -> Option<u32>
    ensures { Ruled (word_of a) (word_of b) result }
{
    let x = a.word();
    let y = b.word();
    if x == y {
        return Some(x);
    }
    if x == b.negated().word() {
        return Some(0); // a side and its negation
    }
    if x == 0 {
        return Some(0);
    }
    if y == 0 {
        return Some(0);
    }
    if x == 1 {
        return Some(y);
    }
    if y == 1 {
        return Some(x);
    }
    None
}

// The literal that stands in for a gate with the sides a and b, or where the gate is to hang, larger side first.
fn stand_in(
    a: Lit,
    b: Lit,
    gates: &[u32],
    scratch: &[u32],
    base: usize,
    w: usize,
    n: usize,
) -> Place
    requires room { Room gates.now scratch.now w n }
    requires n_bound { base + n ≤ w }
    requires rooted { Rooted w (word_of a) (word_of b) }
    requires tree { Tree gates.now scratch.now w n }
    ensures { StandsIn gates.now scratch.now base w n (word_of a) (word_of b) result }
{
    match by_sides(a, b) {
        Some(l) => Place::Taken(l),
        None => pairs::find(gates, scratch, base, w, n, a.larger(b), a.smaller(b)),
    }
}

// Gate k: what its variable becomes, and how many gates are retained then.
fn fold_gate(
    gates: &[u32],
    base: usize,
    w: usize,
    k: usize,
    n: usize,
    to: &mut [u32],
    scratch: &mut [u32],
) -> usize
    requires roomy { Roomy gates.now to.old scratch.old base w k }
    requires held { Held gates.now to.old scratch.old base w k n }
    ensures { Stepped gates.now to.old to.new
        scratch.new base w k n result }
{
    let a = becomes(scratch, Lit::at(gates[3 * k + 1]));
    let b = becomes(scratch, Lit::at(gates[3 * k + 2]));
    match stand_in(a, b, to, scratch, base, w, n) {
        Place::Taken(l) => {
            scratch[base + k] = l;
            return n;
        }
        Place::Free(slot) => {
            pairs::hang(to, scratch, w, slot, n, a.larger(b), a.smaller(b));
            scratch[base + k] = left_side(base, n).word();
            return n + 1;
        }
    }
}

// Each variable below n became itself.
fn begin(scratch: &mut [u32], n: usize)
    requires { (n ≤ length scratch.old) × (n ≤ most + 1) }
    ensures { scratch.new ≡ lits_from 0 n ++ drop n scratch.old }
{
    for v in 0..n {
        scratch[v] = Var::at(v as u32).lit().word();
    }
}

// The left sides of n retained gates, which stand in their rows' first words once these are no links any more.
fn name_gates(to: &mut [u32], base: usize, n: usize)
    requires { (3 * n ≤ length to.old) × (base + n ≤ most + 1) }
    ensures { to.new ≡ put to.old 0 (flat (map gate_line (named base to.old n))) }
{
    for i in 0..n {
        to[3 * i] = left_side(base, i).word();
    }
}

// Folds a gates over the variables below base: the retained gates and their number, and, first in the scratch, what
// each variable became.
pub fn fold_gates(
    gates: &[u32],
    base: usize,
    a: usize,
    to: &mut [u32],
    scratch: &mut [u32],
) -> usize
    requires { Foldable gates.now to.old scratch.old base a }
    ensures { Done gates.now to.old to.new scratch.new base a result }
{
    begin(scratch, base);
    let w = base + a;
    let mut n = 0;
    for k in 0..a {
        n = fold_gate(gates, base, w, k, n, to, scratch);
    }
    name_gates(to, base, n);
    n
}
