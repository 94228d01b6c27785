// Retained gates by their pair of right sides. The tree is a digital search tree: from the pair's root the bits of
// the smaller side lead on, so that a pair is found in at most 22 steps, whatever gates were retained before. The
// smaller side moves the root on from the larger side, over all roots, so that gates that share a side don't share
// a root.  A gate hangs at a slot: at one of 2 × w roots, which are the scratch's words from w on, or at another
// gate's link for a bit. A gate's link for the bit 1 is a word of the scratch from 3 × w on; for the bit 0 it is
// the first word of the gate's own row, until its left side is written there.
ghost use Rattle.std.specs.Prelude.{◌≡◌, ◌&&◌, suc, ◌+◌, ◌*◌, ◌<◌, ◌≤◌, eqb, length};
ghost use Rattle.plan.specs.Literals.{most, lit_of, word_of};
ghost use Rattle.laws.proofs.Tables.{gate_at};
ghost use Rattle.reduce.specs.pairs.Tree.{slot_of};
ghost use Rattle.reduce.specs.pairs.Pairs.{spread_of, root_of, word, Tree, Room, Rooted, Within, Sought};
ghost use Rattle.reduce.specs.pairs.Pairs.{number_of, stored, gates_hung, scratch_hung};

use plan::{Lit, Var};

// Where a gate hangs.
#[derive(Clone, Copy)]
pub enum Slot {
    // At a root: a word of the scratch.
    Root(usize),
    // At a gate's link for a bit.
    Under(usize, u32),
}

// Where a pair belongs.
#[derive(Clone, Copy)]
pub enum Place {
    // The left side of the earlier gate with the same pair.
    Taken(u32),
    // The slot at which a gate with the pair is to hang.
    Free(Slot),
}

// The left side of retained gate i: the variables of retained gates run on from base.
pub fn left_side(base: usize, i: usize) -> Lit
    requires { base + i ≤ most + 1 }
    ensures { word_of result ≡ lit_of (base + i) }
{
    Var::at((base + i) as u32).lit()
}

// Whether gate i has the sides x and y.
fn has_sides(gates: &[u32], i: usize, x: Lit, y: Lit) -> bool
    requires { 3 * i + 3 ≤ length gates.now }
    ensures { result ≡ (eqb (gate_at gates.now i).rhs0 (word_of x) && eqb
        (gate_at gates.now i).rhs1 (word_of y)) }
{
    if gates[3 * i + 1] != x.word() {
        return false;
    }
    gates[3 * i + 2] == y.word()
}

// How far the smaller side moves the root: its hash, a part of 2^32, on a scale of all roots.
fn spread(w: usize, y: Lit) -> usize
    requires { w ≤ most + 1 }
    ensures { result ≡ spread_of w (word_of y) }
{
    let part = y.word() as u64 * 2654435769 % 4294967296;
    (part * (2 * w) as u64 / 4294967296) as usize
}

// Which of the 2 × w roots is the pair's. It is no literal: the larger side's word is only where it starts from.
fn root(w: usize, x: Lit, y: Lit) -> usize
    requires { (word_of x < 2 * w) × (w ≤ most + 1) }
    ensures { result ≡ root_of w (word_of x) (word_of y) }
{
    let v = x.word() as usize + spread(w, y);
    if v < 2 * w { v } else { v - 2 * w }
}

// What stands at gate i's link for a bit: the next gate, counted from 1, or 0.
// No Option: the word is the link itself, as the table holds it, and laws speak of it.
fn leads(gates: &[u32], scratch: &[u32], w: usize, i: usize, bit: u32) -> u32
    requires i_in_bounds { (3 * i < length gates.now) × (4 * w ≤ length scratch.now) }
    requires w_bound { (w ≤ most + 1) × (i < w) }
    ensures { result ≡ word gates.now scratch.now w (slot_of w (suc i) bit) }
{
    if bit == 0 {
        gates[3 * i]
    } else {
        scratch[3 * w + i]
    }
}

// The earliest of the n gates with the sides x and y, or where it is to hang.
pub fn find(
    gates: &[u32],
    scratch: &[u32],
    base: usize,
    w: usize,
    n: usize,
    x: Lit,
    y: Lit,
) -> Place
    requires room { Room gates.now scratch.now w n }
    requires n_bound { base + n ≤ w }
    requires rooted { Rooted w (word_of x) (word_of y) }
    requires tree { Tree gates.now scratch.now w n }
    ensures { Sought gates.now scratch.now base w n (word_of x) (word_of y) result }
{
    let at = w + root(w, x, y);
    let first = scratch[at];
    if first == 0 {
        return Place::Free(Slot::Root(at));
    }
    let mut i = (first - 1) as usize;
    // The key is no literal: its bits, lowest first, lead on from gate to gate.
    let mut key = y.word();
    loop {
        if has_sides(gates, i, x, y) {
            return Place::Taken(left_side(base, i).word());
        }
        let bit = key % 2;
        let next = leads(gates, scratch, w, i, bit);
        if next == 0 {
            return Place::Free(Slot::Under(i, bit));
        }
        i = (next - 1) as usize;
        key = key / 2;
    }
}

// Gate i's link for a bit leads to gate n.
fn set_link(gates: &mut [u32], scratch: &mut [u32], w: usize, i: usize, bit: u32, n: usize)
    requires room { Room gates.old scratch.old w n }
    requires i_lt_n { i < n }
    ensures { (gates.new ≡ gates_hung gates.old w (slot_of w (suc i) bit) n)
        × (scratch.new ≡ scratch_hung scratch.old w (slot_of w (suc i) bit) n) }
{
    if bit == 0 {
        gates[3 * i] = (n + 1) as u32;
        return;
    }
    scratch[3 * w + i] = (n + 1) as u32;
}

// A slot leads to gate n.
fn set_slot(gates: &mut [u32], scratch: &mut [u32], w: usize, slot: Slot, n: usize)
    requires room { Room gates.old scratch.old w n }
    requires within { Within w n slot }
    ensures { (gates.new ≡ gates_hung gates.old w (number_of w slot) n)
        × (scratch.new ≡ scratch_hung scratch.old w (number_of w slot) n) }
{
    match slot {
        Slot::Root(at) => scratch[at] = (n + 1) as u32,
        Slot::Under(i, bit) => set_link(gates, scratch, w, i, bit, n),
    }
}

// Gate n, with the sides x and y, hangs at the slot where its pair belongs. Its row's first word stays zero, as a link.
pub fn hang(gates: &mut [u32], scratch: &mut [u32], w: usize, slot: Slot, n: usize, x: Lit, y: Lit)
    requires room { Room gates.old scratch.old w n }
    requires within { Within w n slot }
    ensures { (gates.new ≡ stored (gates_hung gates.old w (number_of w slot) n) n (word_of x)
        (word_of y)) × (scratch.new ≡ scratch_hung scratch.old w (number_of w slot) n) }
{
    set_slot(gates, scratch, w, slot, n);
    gates[3 * n + 1] = x.word();
    gates[3 * n + 2] = y.word();
}
