// Lent tables of words.
#![tactic(auto)]

ghost use Rattle.std.specs.Prelude.{◌≡◌, ◌≤◌, min};
ghost use Rattle.plan.specs.Literals.{most};
ghost use Rattle.plan.specs.Circuit.{seven, cleared, all_cleared, words_with, scratch_to_work, against, least_short};
ghost use Rattle.plan.specs.Header.{scratch_to_read};
ghost use Rattle.plan.specs.Outcome.{form_of};
ghost use Rattle.tables.specs.Lengths.{lengths_in, sizes_of, shorter_of};

use plan::Counts;

pub mod bitmap;

// The words of tables 1 to 4 and 7 to 9.
#[derive(Clone, Copy)]
pub struct Sizes {
    pub inputs: usize,
    pub latches: usize,
    pub outputs: usize,
    pub gates: usize,
    pub resets: usize,
    pub bads: usize,
    pub constraints: usize,
}

// Zero throughout.
pub fn clear(table: &mut [u32])
    ensures { table.new ≡ cleared table.old }
{
    table.fill(0);
}

// Tables 1 to 4 and 7 to 9, zero throughout.
pub fn clear_all(
    inputs: &mut [u32],
    latches: &mut [u32],
    outputs: &mut [u32],
    gates: &mut [u32],
    resets: &mut [u32],
    bads: &mut [u32],
    constraints: &mut [u32],
)
    ensures { seven inputs.new latches.new outputs.new gates.new
        resets.new bads.new constraints.new
        ≡ all_cleared (seven inputs.old latches.old outputs.old gates.old
        resets.old bads.old constraints.old) }
{
    clear(inputs);
    clear(latches);
    clear(outputs);
    clear(gates);
    clear(resets);
    clear(bads);
    clear(constraints);
}

// The lengths of lent tables.
pub fn lengths(
    inputs: &[u32],
    latches: &[u32],
    outputs: &[u32],
    gates: &[u32],
    resets: &[u32],
    bads: &[u32],
    constraints: &[u32],
) -> Sizes
    ensures { result ≡ sizes_of (seven inputs.now latches.now outputs.now
        gates.now resets.now bads.now constraints.now) }
{
    Sizes {
        inputs: inputs.len(),
        latches: latches.len(),
        outputs: outputs.len(),
        gates: gates.len(),
        resets: resets.len(),
        bads: bads.len(),
        constraints: constraints.len(),
    }
}

// The words of table 5 for every call but the reading of a binary file.
pub fn scratch_to_work(n: Counts) -> usize
    requires { (n.M ≤ most) × (n.O ≤ most) × (n.B ≤ most) × (n.C ≤ most) }
    ensures { result ≡ scratch_to_work n }
{
    4 * (n.M + 1) + n.O + n.B + n.C
}

// The words of table 5 to read a file: in binary those of the marks of symbols alone.
pub fn scratch_to_read(binary: bool, n: Counts) -> usize
    requires m_le_most { (n.M ≤ most) × (n.O ≤ most) × (n.B ≤ most) × (n.C ≤ most) }
    requires i_le_most { (n.I ≤ most) × (n.L ≤ most) }
    ensures { result ≡ scratch_to_read (form_of binary) n }
{
    if binary {
        return n.I + n.L + n.O + n.B + n.C;
    }
    scratch_to_work(n)
}

// Refusal 4: the least of tables 1 to 5 and 7 to 9 that is shorter than the counts ask and, for table 5, than
// `needed`. Tables are looked at in the order of their numbers.
pub fn too_short(n: Counts, to: Sizes, needed: usize, scratch: usize) -> Option<usize>
    requires { (n.L ≤ most) × (n.A ≤ most) }
    ensures { result ≡ least_short (against 1 (words_with needed n) (lengths_in to scratch)) }
{
    if to.inputs < n.I {
        return Some(1);
    }
    if to.latches < 2 * n.L {
        return Some(2);
    }
    if to.outputs < n.O {
        return Some(3);
    }
    if to.gates < 3 * n.A {
        return Some(4);
    }
    if scratch < needed {
        return Some(5);
    }
    if to.resets < n.L {
        return Some(7);
    }
    if to.bads < n.B {
        return Some(8);
    }
    if to.constraints < n.C {
        return Some(9);
    }
    None
}

// The lesser of two lengths.
pub fn lesser(a: usize, b: usize) -> usize
    ensures { result ≡ min a b }
{
    a.min(b)
}

// Of two tables that bear one number the shorter.
pub fn shorter(a: Sizes, b: Sizes) -> Sizes
    ensures { result ≡ shorter_of a b }
{
    Sizes {
        inputs: lesser(a.inputs, b.inputs),
        latches: lesser(a.latches, b.latches),
        outputs: lesser(a.outputs, b.outputs),
        gates: lesser(a.gates, b.gates),
        resets: lesser(a.resets, b.resets),
        bads: lesser(a.bads, b.bads),
        constraints: lesser(a.constraints, b.constraints),
    }
}
