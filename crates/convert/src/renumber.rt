// Literals and gates under the numbers of their variables (the paper, conversion).
ghost use Rattle.std.specs.Prelude.{◌≡◌, List, ℕ, ◌+◌, ◌*◌, ◌<◌, ◌≤◌, length};
ghost use Rattle.plan.specs.Literals.{lit_at, word_of};
ghost use Rattle.plan.specs.Outcome.{put};
ghost use Rattle.laws.proofs.Tables.{firsts, gate_at};
ghost use Rattle.convert.specs.renumber.Renumbered.{number_in, literal_by, Known, word_at, column_by, placed};
ghost use Rattle.convert.specs.renumber.Renumbered.{Placeable, Whole};

use plan::{Lit, Var};

// The number of a literal's variable.
fn number_of(t: &[u32], l: Lit) -> u32
    requires { Known t.now (word_of l) }
    ensures { result ≡ number_in t.now (word_of l) }
{
    let v = l.var().index() as usize;
    t[v]
}

// A literal under its variable's number.
fn renumbered(t: &[u32], l: Lit) -> Lit
    requires { Known t.now (word_of l) }
    ensures { result ≡ lit_at (literal_by t.now (word_of l)) }
{
    Var::at(number_of(t, l)).lit().signed_as(l)
}

// The literals of one column of n rows of `stride` words, each under its variable's number.
pub fn renumber_column(
    table: &[u32],
    stride: usize,
    column: usize,
    n: usize,
    t: &[u32],
    to: &mut [u32],
)
    requires column_lt_stride { column < stride }
    requires n_in_bounds { stride * n ≤ length table.now }
    requires n_in_bounds_2 { n ≤ length to.old }
    requires by_index { (i : ℕ) → i < n → Known t.now (word_at table.now stride column i) }
    ensures { to.new ≡ put to.old 0
        (firsts (column_by t.now table.now stride column) n) }
{
    for i in 0..n {
        to[i] = renumbered(t, Lit::at(table[stride * i + column])).word();
    }
}

// Gate i goes to the row of its number.
fn place_gate(gates: &[u32], i: usize, first: usize, a: usize, t: &[u32], to: &mut [u32])
    requires i_in_bounds { (3 * i + 2 < length gates.now) × (3 * a ≤ length to.old) }
    requires placeable { Placeable t.now first a (gate_at gates.now i) }
    ensures { to.new ≡ placed t.now first to.old
        (gate_at gates.now i) }
{
    let number = number_of(t, Lit::at(gates[3 * i]));
    let rhs0 = renumbered(t, Lit::at(gates[3 * i + 1]));
    let rhs1 = renumbered(t, Lit::at(gates[3 * i + 2]));
    let k = 3 * (number as usize - first);
    to[k] = Var::at(number).lit().word();
    to[k + 1] = rhs0.larger(rhs1).word();
    to[k + 2] = rhs0.smaller(rhs1).word();
}

// Gates in file order, each to its row, so that they stand in the order of their numbers.
pub fn place_gates(gates: &[u32], first: usize, a: usize, t: &[u32], to: &mut [u32])
    requires a_in_bounds { (3 * a ≤ length gates.now) × (3 * a ≤ length to.old) }
    requires by_index { (i : ℕ) → i < a → Placeable t.now first a (gate_at gates.now i) }
    ensures { (made : List ℕ) → Whole gates.now t.now first a to.old made
        → to.new ≡ made }
{
    for i in 0..a {
        place_gate(gates, i, first, a, t, to);
    }
}
