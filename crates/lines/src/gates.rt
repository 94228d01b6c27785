// What only the binary form has: gates as differences, and inputs and latches whose variables run on (AIGER report,
// sections 11 and 12).
ghost use Rattle.std.specs.Prelude.{◌≡◌, map, ◌+◌, ◌*◌, ◌<◌, ◌≤◌, length, take};
ghost use Rattle.plan.specs.Literals.{word_of};
ghost use Rattle.plan.specs.Circuit.{flat, latch_line};
ghost use Rattle.plan.specs.Difference.{difference};
ghost use Rattle.plan.specs.Binary.{gate, gates_from, lits_from, latches_from};
ghost use Rattle.plan.specs.Outcome.{put};
ghost use Rattle.lines.specs.gates.Gates.{side_by, gate_by, GatesSay};

use codec::differences;
use plan::{Lit, Refusal, Var};

// The literal that lies the next difference below another. The first difference of a gate is not 0: lhs > rhs0 ≥ rhs1.
fn taken(file: &[u8], at: usize, first: bool, from: Lit) -> Result<(Lit, usize), Refusal>
    ensures { result ≡ side_by (word_of from) (difference file.now first (word_of from) at) }
{
    let (d, next) = differences::read_difference(file, at)?;
    if first {
        if d == 0 {
            return Err(Refusal::BadDifference(at));
        }
    }
    if from.word() < d {
        return Err(Refusal::BadDifference(at));
    }
    Ok((from.down(d), next))
}

// The gate of a variable: lhs - rhs0, then rhs0 - rhs1, each judged before the next is read.
fn gate_at(file: &[u8], at: usize, v: u32) -> Result<(Lit, Lit, Lit, usize), Refusal>
    requires { v < 1048576 }
    ensures { result ≡ gate_by (gate file.now v at) }
{
    let lhs = Var::at(v).lit();
    let (rhs0, middle) = taken(file, at, true, lhs)?;
    let (rhs1, next) = taken(file, middle, false, rhs0)?;
    Ok((lhs, rhs0, rhs1, next))
}

// n gates of the variables from first on, three words each. After a refusal nothing is promised of the words: the
// caller clears them.
fn read_run(
    file: &[u8],
    at: usize,
    first: u32,
    n: usize,
    table: &mut [u32],
) -> Result<usize, Refusal>
    requires n_in_bounds { 3 * n ≤ length table.old }
    requires n_bound { first + n ≤ 1048576 }
    ensures { GatesSay table.old (gates_from file.now n first at) result table.new }
{
    let mut next = at;
    for i in 0..n {
        let (lhs, rhs0, rhs1, after) = gate_at(file, next, first + i as u32)?;
        let k = 3 * i;
        table[k] = lhs.word();
        table[k + 1] = rhs0.word();
        table[k + 2] = rhs1.word();
        next = after;
    }
    Ok(next)
}

// The same in two runs: what is called from two places the compiler keeps as a function of its own. Among the
// tables of a whole file, where it would be inlined, the loop looks up the file's address and length in memory at
// every byte, and takes a tenth longer.
pub fn read_gates(
    file: &[u8],
    at: usize,
    first: u32,
    n: usize,
    table: &mut [u32],
) -> Result<usize, Refusal>
    requires n_in_bounds { 3 * n ≤ length table.old }
    requires n_bound { first + n ≤ 1048576 }
    ensures { GatesSay table.old (gates_from file.now n first at) result table.new }
{
    let half = n / 2;
    let next = read_run(file, at, first, half, table)?;
    read_run(
        file,
        next,
        first + half as u32,
        n - half,
        &mut table[3 * half..],
    )
}

// The literals of n variables from first on, which the binary form leaves out of the file.
pub fn run_on(table: &mut [u32], first: u32, n: usize)
    requires n_in_bounds { n ≤ length table.old }
    requires n_bound { first + n ≤ 1048576 }
    ensures { table.new ≡ put table.old 0 (lits_from first n) }
{
    for i in 0..n {
        table[i] = Var::at(first + i as u32).lit().word();
    }
}

// n next states, one word each, become n latches of the variables from first on, two words each: from the last one
// down, so that no next state is overwritten before it is moved.
pub fn spread(table: &mut [u32], first: u32, n: usize)
    requires n_in_bounds { 2 * n ≤ length table.old }
    requires n_bound { first + n ≤ 1048576 }
    ensures { table.new ≡ put table.old 0
        (flat (map latch_line (latches_from first (take n table.old)))) }
{
    for i in (0..n).rev() {
        let k = 2 * i;
        table[k + 1] = table[i];
        table[k] = Var::at(first + i as u32).lit().word();
    }
}
