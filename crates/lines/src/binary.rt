// What follows the header of the binary form: a next state for each latch, possibly with a reset, and what is
// observed as lines, then the gates as differences (AIGER report, sections 11 and 12).
ghost use Rattle.std.specs.Prelude.{◌≡◌, ◌+◌, ◌*◌, ◌≤◌, length};
ghost use Rattle.plan.specs.Literals.{most};
ghost use Rattle.plan.specs.Circuit.{seven};
ghost use Rattle.plan.specs.Binary.{binary_body};
ghost use Rattle.laws.proofs.Held.{BodySays};

use crate::gates::{read_gates, run_on};
use crate::latches::{more_resets, read_latches};
use crate::outputs::read_observed;
use plan::{Counts, Refusal, Version};

// Reads the body into tables 1 to 4 and 7 to 9. Nothing is defined twice here, so marks of any length and content
// will do: they are lent only because lines are read by one reader. After a refusal nothing is promised of the
// tables: the caller clears them.
pub fn read_binary(
    version: Version,
    file: &[u8],
    at: usize,
    n: Counts,
    inputs: &mut [u32],
    latches: &mut [u32],
    outputs: &mut [u32],
    gates: &mut [u32],
    resets: &mut [u32],
    bads: &mut [u32],
    constraints: &mut [u32],
    marks: &mut [u32],
) -> Result<usize, Refusal>
    requires m_le_most { n.M ≤ most }
    requires a_value { n.I + n.L + n.A ≡ n.M }
    requires i_in_bounds { n.I ≤ length inputs.old }
    requires l_in_bounds { 2 * n.L ≤ length latches.old }
    requires o_in_bounds { n.O ≤ length outputs.old }
    requires a_in_bounds { 3 * n.A ≤ length gates.old }
    requires l_in_bounds_2 { n.L ≤ length resets.old }
    requires b_in_bounds { n.B ≤ length bads.old }
    requires c_in_bounds { n.C ≤ length constraints.old }
    ensures { BodySays
        (seven inputs.old latches.old outputs.old gates.old
        resets.old bads.old constraints.old)
        (binary_body version file.now n at)
        result
        (seven inputs.new latches.new outputs.new gates.new
        resets.new bads.new constraints.new) }
{
    let m = n.M as u32;
    let more = more_resets(version);
    let first = 1 + n.I as u32;
    let second = read_latches(file, at, false, m, more, first, n.L, latches, resets, marks)?;
    let third = read_observed(file, second, n, outputs, bads, constraints, marks)?;
    run_on(inputs, 1, n.I);
    read_gates(file, third, first + n.L as u32, n.A, gates)
}
