// Refusal 6 over given tables: no variable is defined twice (the paper, refusal numbers).
ghost use Rattle.std.specs.Prelude.{List, ℕ, ◌*◌, ◌<◌, ◌≤◌, length};
ghost use Rattle.laws.proofs.Marks.{Agrees};
ghost use Rattle.laws.proofs.Tables.{head_at, heads_at};
ghost use Rattle.judge.specs.twice.Twice.{RowsSay, Ranged, TwiceSays};

use plan::{Counts, Lit};
use tables::bitmap;

// Marks the variables of n rows, of `stride` words of which the first defines; whether one was marked already.
#[tactic(auto, using(laws::proofs::Tables::row_ends))]
fn mark_rows(table: &[u32], stride: usize, n: usize, marks: &mut [u32]) -> bool
    requires stride_nonzero { 0 < stride }
    requires n_in_bounds { stride * n ≤ length table.now }
    requires by_index { (i : ℕ) → i < n → head_at table.now stride i < length marks.old }
    ensures { (m : ℕ) (seen : List ℕ)
        → ((i : ℕ) → i < n → head_at table.now stride i ≤ m)
        → Agrees m seen marks.old
        → RowsSay m seen (heads_at table.now stride n) result marks.new }
{
    for i in 0..n {
        let v = Lit::at(table[stride * i]).var().index() as usize;
        if bitmap::is_on(marks, 0, v) {
            return true;
        }
        bitmap::raise(marks, 0, v);
    }
    false
}

// The table, 1, 2 or 4, of the first definition of a variable that is defined before it, in the order of the
// tables. The other tables define nothing.
pub fn defined_twice(
    n: Counts,
    inputs: &[u32],
    latches: &[u32],
    gates: &[u32],
    marks: &mut [u32],
) -> Option<usize>
    requires { Ranged n inputs.now latches.now gates.now marks.old }
    ensures { TwiceSays n inputs.now latches.now gates.now result
        marks.new }
{
    if mark_rows(inputs, 1, n.I, marks) {
        return Some(1);
    }
    if mark_rows(latches, 2, n.L, marks) {
        return Some(2);
    }
    if mark_rows(gates, 3, n.A, marks) {
        return Some(4);
    }
    None
}
