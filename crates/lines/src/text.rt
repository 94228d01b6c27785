// The body of the text form (the paper, text form; AIGER report, section 7).
ghost use Rattle.std.specs.Prelude.{◌≡◌, ℕ, ◌*◌, ◌≤◌, ◌<◌, length, get_or};
ghost use Rattle.plan.specs.Literals.{most};
ghost use Rattle.plan.specs.Circuit.{seven};
ghost use Rattle.lines.specs.text.Said.{TextSays};

use crate::latches::{more_resets, read_latches};
use crate::outputs::read_observed;
use crate::read_lines;
use plan::{Counts, Refusal, Version};

// I lines of one literal, L of two and possibly a reset, O, B and C of one, A of three, each list into its table.
// Inputs, latches and gates define, and marks carry what is defined from one list to the next. After a refusal
// nothing is promised of tables and marks: the caller clears them.
pub fn read_text(
    version: Version,
    file: &[u8],
    at: usize,
    n: Counts,
    inputs: &mut [u32],
    latches: &mut [u32],
    outputs: &mut [u32],
    gates: &mut [u32],
    resets: &mut [u32],
    bads: &mut [u32],
    constraints: &mut [u32],
    marks: &mut [u32],
) -> Result<usize, Refusal>
    requires m_le_most { n.M ≤ most }
    requires l_le_m { n.L ≤ n.M }
    requires i_in_bounds { n.I ≤ length inputs.old }
    requires l_in_bounds { 2 * n.L ≤ length latches.old }
    requires o_in_bounds { n.O ≤ length outputs.old }
    requires a_in_bounds { 3 * n.A ≤ length gates.old }
    requires l_in_bounds_2 { n.L ≤ length resets.old }
    requires b_in_bounds { n.B ≤ length bads.old }
    requires c_in_bounds { n.C ≤ length constraints.old }
    requires m_in_bounds { n.M < length marks.old }
    requires by_index { (v : ℕ) → v ≤ n.M → get_or marks.old v 0 ≡ 0 }
    ensures { TextSays version file.now n at
        (seven inputs.old latches.old outputs.old gates.old
        resets.old bads.old constraints.old)
        result
        (seven inputs.new latches.new outputs.new gates.new
        resets.new bads.new constraints.new)
        marks.new }
{
    let m = n.M as u32;
    let after = read_lines(file, at, 1, true, m, n.I, inputs, marks)?;
    let more = more_resets(version);
    let after = read_latches(file, after, true, m, more, 0, n.L, latches, resets, marks)?;
    let after = read_observed(file, after, n, outputs, bads, constraints, marks)?;
    read_lines(file, after, 3, true, m, n.A, gates, marks)
}
