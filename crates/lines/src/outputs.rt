// Lines of what is observed: outputs, bad states and constraints, which follow one another in both forms.
ghost use Rattle.std.specs.Prelude.{◌≡◌, List, ℕ, ◌≤◌, length};
ghost use Rattle.plan.specs.Literals.{most};
ghost use Rattle.laws.proofs.Marks.{Agrees};
ghost use Rattle.lines.specs.outputs.Observed.{observed_at, ObservedSay};

use crate::read_lines;
use plan::{Counts, Refusal};

// O, B and C lines of one literal, each list into its table. They define nothing, so marks of any length and
// content will do and stay as they are.
pub fn read_observed(
    file: &[u8],
    at: usize,
    n: Counts,
    outputs: &mut [u32],
    bads: &mut [u32],
    constraints: &mut [u32],
    marks: &mut [u32],
) -> Result<usize, Refusal>
    requires m_le_most { n.M ≤ most }
    requires o_in_bounds { n.O ≤ length outputs.old }
    requires b_in_bounds { n.B ≤ length bads.old }
    requires c_in_bounds { n.C ≤ length constraints.old }
    ensures { (seen : List ℕ) → Agrees n.M seen marks.old
        → ObservedSay n.M seen outputs.old bads.old constraints.old
        (observed_at file.now n at) result outputs.new bads.new constraints.new
        marks.new }
{
    let m = n.M as u32;
    let after = read_lines(file, at, 1, false, m, n.O, outputs, marks)?;
    let after = read_lines(file, after, 1, false, m, n.B, bads, marks)?;
    read_lines(file, after, 1, false, m, n.C, constraints, marks)
}
